// A plate: the copies of its designs fill its slots, and its variety is how many designs have a copy.
ghost use Rattle.std.specs.Prelude.{◌≡◌, ◌+◌, ◌*◌, ◌<◌, ◌≤◌, true, ◌∷◌, length, nat_le, refl};
ghost use Rattle.records.specs.Bytes.{number};
ghost use Rattle.bounds.specs.Boards.{sound};
ghost use Rattle.bounds.specs.Exact.{exact};
ghost use Rattle.bounds.proofs.Lifted.{exact_on_laws};
ghost use Rattle.records.specs.Records.{plate_at};
ghost use Rattle.rule_families.specs.Narrows.{Narrows};
ghost use Rattle.rules.proofs.Few.{two_and_64};
ghost use Rattle.plates.specs.Plates.{plate, scope_of, plate_rule};

use crate::frame::Frame;
use bounds::row::Row;
use bounds::scope::Scope;
use records::body::BodyKind;
use records::bytes::Spot;
use records::plates::Plates;
use rule_families::change::Change;
use rules::named::{Lawful, Named};

// The plate whose record stands at a spot of the file.
// Kept: a total is such a struct too; one for both would lie in rules, below plates and totals, which could give it no rule of their own.
// Kept: public, so that any spot makes one; that its record keeps its limits is asked where it is read as a rule, not of callers.
#[derive(Clone, Copy)]
pub struct Plate<'f> {
    spot: Spot<'f>,
    // Whether the record ends within the file, as each does that a job has: its cells are then read with no more ado.
    whole: bool,
    ghost ends: { whole ≡ true → spot.place + (6 + 2 * number 2 spot.bytes.now (spot.place + 4)) ≤ length spot.bytes.now },
}

impl<'f> Plate<'f> {
    pub fn at(spot: Spot<'f>) -> Plate<'f>
        ensures spot { result.spot ≡ spot.entry }
        ensures whole { result.whole ≡ nat_le (spot.entry.place + (6 + 2 * number 2 spot.entry.bytes.now (spot.entry.place + 4))) (length spot.entry.bytes.now) }
    {
        let whole = spot.holds(Plates::HEAD + 2 * usize::from(spot.u16(4)));
        Plate { spot, whole }
    }
}

// Narrows the rows of the slots, the variety and the counts to the hull of the fillings that meet the rule.
// Kept: a table with room for 64 counts takes longer to clear than the few of most plates to narrow.
fn narrow(slots: &mut Row, variety: &mut Row, counts: &mut [Row]) -> Change
    requires few { length counts.old ≤ 64 }
    requires sound { sound (slots.old ∷ (variety.old ∷ counts.old)) ≡ true }
    ensures { Narrows (exact plate) (slots.old ∷ (variety.old ∷ counts.old)) (slots.new ∷ (variety.new ∷ counts.new)) result }
{
    if counts.len() < 16 {
        narrow_in::<16>(slots, variety, counts)
    } else {
        narrow_in::<65>(slots, variety, counts)
    }
}

// The same with a table for fewer than N counts.
#[tactic(auto, using(crate::proofs::Whole::narrowing))]
fn narrow_in<const N: usize>(slots: &mut Row, variety: &mut Row, counts: &mut [Row]) -> Change
    requires few { length counts.old ≤ 64 }
    requires room { length counts.old < N }
    requires size { N ≤ 65 }
    requires sound { sound (slots.old ∷ (variety.old ∷ counts.old)) ≡ true }
    ensures { Narrows (exact plate) (slots.old ∷ (variety.old ∷ counts.old)) (slots.new ∷ (variety.new ∷ counts.new)) result }
{
    let Some((frame, widths)) = Frame::of::<N>(*slots, *variety, counts) else {
        return Change::Void;
    };
    let new_slots = frame.slots();
    let new_variety = frame.variety();
    let counts_moved = frame.put_counts(widths, counts);
    let slots_moved = new_slots != *slots;
    let variety_moved = new_variety != *variety;
    *slots = new_slots;
    *variety = new_variety;
    if counts_moved || slots_moved || variety_moved {
        Change::Narrowed
    } else {
        Change::Quiet
    }
}

impl Scope for Plate<'_> {
    ghost scope = { λ p. scope_of (plate_at p.spot.bytes.now p.spot.place) };

    fn arity(&self) -> usize {
        if !Plates::keeps_limits(self.spot) {
            return 0;
        }
        Plates::arity(self.spot)
    }

    // Kept: only cells that there are are asked for; the record's `name` reads the count again for each, which took the planner 16 percent longer over 14 thousand search nodes.
    #[tactic(auto, using(records::proofs::Fields::length_numbers, records::proofs::Fields::get_or_numbers))]
    fn cell(&self, i: usize) -> usize {
        // the number of counts stands between the variety and the first count
        let index = if i < 2 { i } else { i + 1 };
        usize::from(if self.whole {
            self.spot.u16_inside(2 * index)
        } else {
            self.spot.u16(2 * index)
        })
    }
}

impl Named for Plate<'_> {
    ghost scoped = { λ p. plate_rule p.spot.bytes.now p.spot.place };

    ghost names_them = { λ p. refl };

    ghost few = { λ p. let r = plate_at p.spot.bytes.now p.spot.place in two_and_64 (nat_le 1 (length r.counts)) r.slots r.variety r.counts };

    fn is_exact(&self) -> bool {
        true
    }

    fn narrow_own(&self, own: &mut [Row]) -> Change {
        // Only a record that keeps no limits names no cell.
        let Some((slots, rest)) = own.split_first_mut() else {
            return Change::Quiet;
        };
        let Some((variety, counts)) = rest.split_first_mut() else {
            return Change::Quiet;
        };
        narrow(slots, variety, counts)
    }
}

impl Lawful for Plate<'_> {
    ghost asks = { λ p. plate_rule p.spot.bytes.now p.spot.place };

    ghost lawful = { λ p. exact_on_laws (scope_of (plate_at p.spot.bytes.now p.spot.place)) plate };

    ghost as_scoped = { λ p. refl };
}
