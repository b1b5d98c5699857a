// What the bounds of a total promise, and what they do not.
ghost use Rattle.std.specs.Prelude.{◌≡◌, true, [], ◌∷◌};
ghost use Rattle.bounds.specs.Boards.{sound};
ghost use Rattle.rule_families.specs.Narrows.{Narrows};
ghost use Rattle.rule_families.specs.declared.change.Change.TheVariants.{Narrowed, Void};
ghost use Rattle.totals.specs.Worked.{narrowed_by, CeilingIsExact, FloorIsExact, BothLimitsBind, both_one};

use crate::family::TotalList;
use bounds::row::Row;
use rule_families::change::Change;
use rule_families::family::Family;

// Stands for the theorem that it ensures, as the next does.
pub fn ceiling_is_exact()
    ensures { CeilingIsExact }
{}

pub fn floor_is_exact()
    ensures { FloorIsExact }
{}

// What the total at a file's start makes of the rows.
fn applied(file: &[u8], rows: &mut [Row]) -> Change
    requires { sound rows.old ≡ true }
    ensures { Narrows (narrowed_by file.now) rows.old rows.new result }
{
    TotalList::at(file, &[0]).narrow(0, rows)
}

// Twice each of two counts adds up to 3: three narrowings find that it cannot be, where an exact one finds it at once.
pub fn both_limits_bind() -> ([Change; 3], [Row; 2])
    ensures rule { BothLimitsBind }
    ensures changes { result.0 ≡ Narrowed ∷ (Narrowed ∷ (Void ∷ [])) }
    ensures rows { result.1 ≡ both_one }
{
    let file = [
        2, 0, 3, 0, 0, 0, 0, 0, 0, 0, 3, 0, 0, 0, 0, 0, 0, 0, 0, 0, 2, 0, 0, 0, 1, 0, 2, 0, 0, 0,
    ];
    let mut rows = [Row { low: 0, high: 4 }, Row { low: 0, high: 4 }];
    let first = applied(&file, &mut rows);
    let second = applied(&file, &mut rows);
    let third = applied(&file, &mut rows);
    ([first, second, third], rows)
}
