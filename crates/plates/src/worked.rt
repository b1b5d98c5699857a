// Plates worked out by the code, each with what the definition of the rule gives.
ghost use Rattle.std.specs.Prelude.{◌≡◌, true};
ghost use Rattle.bounds.specs.Boards.{sound};
ghost use Rattle.rule_families.specs.Narrows.{Narrows};
ghost use Rattle.rule_families.specs.declared.change.Change.TheVariants.{Quiet, Narrowed, Void};
ghost use Rattle.plates.specs.Worked.{narrowed_by, OneAlone, others_out, TwoOfThree, two_of_three, TooFew, too_few, PlatesAreExact};

use crate::family::Plates;
use bounds::row::Row;
use rule_families::change::Change;
use rule_families::family::Family;

// Slots in cell 3, a variety in cell 4, and three counts in the cells from 0 on.
const THREE_DESIGNS: [u8; 12] = [3, 0, 4, 0, 3, 0, 0, 0, 1, 0, 2, 0];

// What the plate at a file's start makes of the rows.
// Kept: totals have such a function too; one for both would be a crate's promise for the sake of two examples.
fn applied<const N: usize>(file: &[u8], rows: [Row; N]) -> (Change, [Row; N])
    requires { sound rows ≡ true }
    ensures { Narrows (narrowed_by file.now) rows.entry result.1 result.0 }
{
    let plates = Plates::at(file, &[0]);
    let mut rows = rows;
    let change = plates.narrow(0, &mut rows);
    (change, rows)
}

pub fn one_alone() -> (Change, [Row; 5])
    ensures rule { OneAlone }
    ensures change { result.0 ≡ Narrowed }
    ensures rows { result.1 ≡ others_out }
{
    let rows = [
        Row { low: 2, high: 2 },
        Row { low: 0, high: 2 },
        Row { low: 0, high: 1 },
        Row { low: 2, high: 5 },
        Row { low: 1, high: 1 },
    ];
    applied(&THREE_DESIGNS, rows)
}

pub fn two_of_three() -> (Change, [Row; 5])
    ensures rule { TwoOfThree }
    ensures change { result.0 ≡ Quiet }
    ensures rows { result.1 ≡ two_of_three }
{
    let rows = [
        Row { low: 0, high: 2 },
        Row { low: 0, high: 2 },
        Row { low: 0, high: 2 },
        Row { low: 3, high: 3 },
        Row { low: 2, high: 2 },
    ];
    applied(&THREE_DESIGNS, rows)
}

pub fn too_few() -> (Change, [Row; 4])
    ensures rule { TooFew }
    ensures change { result.0 ≡ Void }
    ensures rows { result.1 ≡ too_few }
{
    let rows = [
        Row { low: 0, high: 1 },
        Row { low: 0, high: 1 },
        Row { low: 2, high: 2 },
        Row { low: 1, high: 1 },
    ];
    applied(&[2, 0, 3, 0, 2, 0, 0, 0, 1, 0], rows)
}

// Stands for the theorem that it ensures.
#[tactic(auto, using(bounds::proofs::Lifted::lifted_exact))]
pub fn plates_are_exact()
    ensures { PlatesAreExact }
{}

#[cfg(test)]
mod tests {
    use super::*;

    #[test]
    fn the_others_are_left_out(rt: HostRuntime) {
        let (change, rows) = one_alone();
        assert_eq!(rt; change, Change::Narrowed);
        assert_eq!(rt; rows[1], Row { low: 0, high: 0 });
        assert_eq!(rt; rows[2], Row { low: 0, high: 0 });
        assert_eq!(rt; rows[3], Row { low: 2, high: 2 });
    }

    #[test]
    fn any_two_of_three(rt: HostRuntime) {
        assert_eq!(rt; two_of_three().0, Change::Quiet);
    }

    #[test]
    fn one_design_has_too_few(rt: HostRuntime) {
        assert_eq!(rt; too_few().0, Change::Void);
    }
}
