// A total as a rule over the cells that it names.
ghost use Rattle.std.specs.Prelude.{◌≡◌, ◌≤◌, true, length, refl};
ghost use Rattle.bounds.specs.Boards.{sound};
ghost use Rattle.linear.specs.Totals.{total_scoped};
ghost use Rattle.linear.proofs.TotalLaws.{total_laws, total_few};
ghost use Rattle.rule_families.specs.Narrows.{Narrows};
ghost use Rattle.totals.specs.Read.{record_of};

use super::Total;
use bounds::row::Row;
use bounds::scope::Scope;
use records::body::BodyKind;
use records::totals::Totals;
use rule_families::change::Change;
use rules::named::{Lawful, Named};

// Most totals name so few cells, and do not pay for the room that the largest needs.
const FEW_CELLS: usize = 16;

const MOST_CELLS: usize = 64;

impl Scope for Total<'_> {
    ghost scope = { λ t. (total_scoped (record_of t)).scope };

    fn arity(&self) -> usize {
        if !self.kept && !Totals::keeps_limits(self.spot) {
            return 0;
        }
        Totals::arity(self.spot)
    }

    // Kept: only cells that there are are asked for; the record's `name` reads the count again for each, which took the planner 16 percent longer over 14 thousand search nodes.
    #[tactic(auto, using(crate::proofs::Scope::named_cell))]
    fn cell(&self, i: usize) -> usize {
        let offset = Totals::HEAD + 6 * i;
        usize::from(if self.whole {
            self.spot.u16_inside(offset)
        } else {
            self.spot.u16(offset)
        })
    }
}

impl Named for Total<'_> {
    ghost scoped = { λ t. total_scoped (record_of t) };

    ghost names_them = { λ t. refl };

    ghost few = { λ t. total_few (record_of t) };

    #[tactic(auto, using(crate::proofs::Scope::spot_told))]
    fn narrow_own(&self, own: &mut [Row]) -> Change {
        if own.len() <= FEW_CELLS {
            self.narrow_in::<FEW_CELLS>(own)
        } else {
            self.narrow_in::<MOST_CELLS>(own)
        }
    }
}

impl Lawful for Total<'_> {
    ghost asks = { λ t. total_scoped (record_of t) };

    ghost lawful = { λ t. total_laws (record_of t) };

    ghost as_scoped = { λ t. refl };
}

impl Total<'_> {
    // In room for the new rows of up to N cells.
    #[tactic(auto, using(crate::proofs::Scope::spot_told))]
    fn narrow_in<const N: usize>(&self, own: &mut [Row]) -> Change
        requires own { length own.old ≡ length (total_scoped (record_of self.now)).scope }
        requires room { length own.old ≤ N }
        requires size { N ≤ 64 }
        requires sound { sound own.old ≡ true }
        ensures { Narrows (total_scoped (record_of self.now)).narrowing own.old own.new result }
    {
        // Only a rule that asks nothing names no cell.
        if own.is_empty() {
            return Change::Quiet;
        }
        let Some(limits) = self.limits(own).open() else {
            return Change::Void;
        };
        let mut room = [Row::default(); N];
        let new = &mut room[..own.len()];
        let change = self.bound(limits, own, new);
        if change == Change::Narrowed {
            own.copy_from_slice(new);
        }
        change
    }
}
