// What a board knows of its rules.
ghost use Rattle.std.specs.Prelude.{◌≡◌, true};
ghost use Rattle.bounds.specs.Boards.{sound};
ghost use Rattle.bounds.specs.Laws.{Meaning, FiveLaws, Idempotent};
ghost use Rattle.rule_families.specs.Marks.{Marks, Lists};
ghost use Rattle.rule_families.specs.Narrows.{Narrows};

use crate::change::Change;
use bounds::row::Row;

// A lawful family has no more rules.
pub const MOST_RULES: usize = 4096;

// A family of rules (constraints), known by its meaning alone; each shows the five laws.
pub trait Family {
    ghost meaning: { Self → Meaning };

    ghost lawful: { (f : Self) → FiveLaws (meaning f) };

    fn size(&self) -> usize
        ensures { result ≡ (meaning self.now).size };

    // Whether the rule touches the cell on a board of so many cells.
    fn touches(&self, rule: usize, cells: usize, cell: usize) -> bool
        ensures { result ≡ ((meaning self.now).rule rule).touches cells cell };

    // Marks the cells that the rule touches, on a board of as many cells as there are marks.
    fn mark(&self, rule: usize, marks: &mut [bool])
        ensures { Marks ((meaning self.now).rule rule) marks.old marks.new }
    {
        let cells = marks.len();
        for (cell, marked) in marks.iter_mut().enumerate() {
            if self.touches(rule, cells, cell) {
                *marked = true;
            }
        }
    }

    // Lists the cells that the rule touches, on a board of so many cells, in the room that is lent, and tells how many they are.
    // None tells nothing: of a rule that is not listed each cell is asked by its mark.
    fn list(&self, rule: usize, cells: usize, room: &mut [usize]) -> Option<usize>
        ensures { Lists ((meaning self.now).rule rule) cells room.new result }
    {
        None
    }

    // Whether the rule is known to be quiet on rows that it has narrowed, so that it need not be applied to them again.
    fn is_idempotent(&self, rule: usize) -> bool
        ensures { result ≡ true → Idempotent ((meaning self.now).rule rule) }
    {
        false
    }

    // The rows are narrowed in place; where the rule has no filling left they stay as they were.
    // Kept: memory holds plain rows, so that they are sound is asked here and of all that hands them on, and no type says it.
    fn narrow(&self, rule: usize, rows: &mut [Row]) -> Change
        requires { sound rows.old ≡ true }
        ensures { Narrows ((meaning self.now).rule rule).narrowed rows.old rows.new result };
}
