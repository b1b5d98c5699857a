// The totals of a job file, one rule to a record.
ghost use Rattle.std.specs.Prelude.{◌≡◌, ℕ, ◌<◌, true, length, slice_index};
ghost use Rattle.records.specs.Records.{total_at};
ghost use Rattle.records.specs.Forms.{total_limits};
ghost use Rattle.linear.specs.Totals.{total_scoped};
ghost use Rattle.linear.proofs.TotalLaws.{total_laws};

use crate::total::Total;
use records::body::BodyKind;
use records::bytes::Spot;
use records::totals;
use rules::numbered::{Numbered, Rules};

// Where each record stands in the file.
// Kept: not the list that plates and triples have: of a total it takes a walk over its weights to see whether it keeps its
// limits, so that it is asked once of all and not at each application.
#[derive(Clone, Copy)]
pub struct TotalList<'f> {
    file: &'f [u8],
    places: &'f [u16],
    kept: bool,
    ghost all_keep: { kept ≡ true → (i : ℕ) → i < length places.now → total_limits (total_at file.now (slice_index places.now i)) ≡ true },
}

pub type Totals<'f> = Rules<TotalList<'f>>;

impl<'f> Numbered for TotalList<'f> {
    type Rule = Total<'f>;

    ghost count = { λ s. length s.places.now };

    ghost at = { λ s number. total_scoped (total_at s.file.now (slice_index s.places.now number)) };

    ghost lawful = { λ s number. total_laws (total_at s.file.now (slice_index s.places.now number)) };

    fn count(&self) -> usize {
        self.places.len()
    }

    fn rule(&self, number: usize) -> Option<Total<'f>> {
        let spot = Spot {
            bytes: self.file,
            place: usize::from(self.places[number]),
        };
        if self.kept {
            Some(Total::kept_at(spot))
        } else {
            Some(Total::at(spot))
        }
    }
}

impl<'f> TotalList<'f> {
    ghost use Rattle.totals.specs.Lists.{Over};

    // One rule to a record.
    pub fn at(file: &'f [u8], places: &'f [u16]) -> Totals<'f>
        ensures { Over file.entry.now places.entry.now result }
    {
        Rules(TotalList {
            file,
            places,
            kept: all_keep(file, places),
        })
    }
}

// Whether each of the records keeps its limits.
fn all_keep(file: &[u8], places: &[u16]) -> bool
    ensures { result ≡ true → (i : ℕ) → i < length places.now → total_limits (total_at file.now (slice_index places.now i)) ≡ true }
{
    for place in places {
        let spot = Spot {
            bytes: file,
            place: usize::from(*place),
        };
        if !totals::Totals::keeps_limits(spot) {
            return false;
        }
    }
    true
}
