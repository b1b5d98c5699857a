// The narrowing of the rows of a total's cells.
ghost use Rattle.std.specs.Prelude.{◌≡◌, ◌^◌, ◌<◌, ◌≤◌, true, length, slice_index};
ghost use Rattle.bounds.specs.Boards.{sound};
ghost use Rattle.totals.specs.Read.{record_of, weights};
ghost use Rattle.totals.specs.Narrowing.{limits_of, new_rows, Opened, Outcome};
ghost use Rattle.rule_families.specs.declared.change.Change.TheVariants.{Narrowed};

use super::Total;
use bounds::row::Row;
use linear::limits::{Limits, Open};
use records::body::BodyKind;
use records::totals::Totals;
use rule_families::change::Change;

impl Total<'_> {
    // Kept: the weights lie in the file's bytes, so there is no slice of them to go over beside the rows; and only those that there are are asked for, where the record's `weight` reads the count again for each.
    #[tactic(auto, using(crate::proofs::Scope::weight_here))]
    fn weight(self, i: usize) -> u32
        requires inside { i < length (record_of self).terms }
        requires few { i < 64 }
        ensures { result ≡ slice_index (weights self.entry) i }
    {
        let offset = Totals::HEAD + 6 * i + 2;
        if self.whole {
            self.spot.u32_inside(offset)
        } else {
            self.spot.u32(offset)
        }
    }

    // Kept: inlined, as is what bounds the rows, since each total that is applied takes both.
    #[inline(always)]
    #[tactic(auto, using(crate::proofs::Limits::limiting))]
    pub(super) fn limits(&self, own: &[Row]) -> Limits
        requires many { length own.now ≡ length (record_of self.now).terms }
        requires few { length own.now ≤ 64 }
        ensures value { result ≡ limits_of self.now own.now }
        ensures light { result.most < 2 ^ 63 }
    {
        let head = Totals::read(self.spot);
        let mut limits = Limits::from_floor_to_ceiling(head.floor, head.ceiling);
        // Kept: that no sum of a `fold` wraps is not proved; the invariant of the loop shows it.
        for (i, row) in own.iter().enumerate() {
            limits = limits.weigh(self.weight(i), *row);
        }
        limits
    }

    // Writes the rows with their new bounds, as far as each holds a count, and tells what they make of the rows.
    // Kept: all bounds are made of those before, so that the rows stay as they are until every new one is known.
    #[inline(always)]
    pub(super) fn bound(&self, limits: Open, own: &[Row], new: &mut [Row]) -> Change
        requires opened { Opened self.now own.now limits.sum }
        requires sound { sound own.now ≡ true }
        requires room { length new.old ≡ length own.now }
        ensures outcome { Outcome (new_rows self.now own.now) own.now result }
        ensures rows { result ≡ Narrowed → new.new ≡ new_rows self.now own.now }
    {
        let mut change = Change::Quiet;
        for (i, row) in own.iter().enumerate() {
            let bounded = limits.bound(self.weight(i), *row);
            if bounded != *row {
                if !bounded.is_sound() {
                    return Change::Void;
                }
                change = Change::Narrowed;
            }
            new[i] = bounded;
        }
        change
    }
}
