// Rules that stand as records in a file.
ghost use Rattle.std.specs.Prelude.{◌≡◌, length, slice_index};
ghost use Rattle.bounds.specs.Scoped.{Scoped, ScopedLaws};
ghost use Rattle.records.specs.declared.bytes.Spot.{Spot};
ghost use Rattle.rules.specs.Numbers.{or_none};
ghost use Rattle.rules.specs.Places.{Over};

use crate::named::Named;
use crate::numbered::{Numbered, Rules};
use records::bytes::Spot;
use std::marker::PhantomData;

// A rule that is read from the record at a spot of a file.
pub trait Recorded<'f>: Named + Drop {
    // What the record at a spot asks.
    ghost reads: { Spot → Scoped };

    ghost reads_lawful: { (spot : Spot) → ScopedLaws (reads spot) };

    // None where it asks nothing.
    fn read(spot: Spot<'f>) -> Option<Self>
        ensures { or_none Self.scoped result ≡ reads spot.entry };
}

// Where each record stands in the file.
#[derive(Clone, Copy)]
pub struct Listed<'f, R> {
    file: &'f [u8],
    places: &'f [u16],
    of: PhantomData<R>,
}

impl<'f, R: Recorded<'f>> Numbered for Listed<'f, R> {
    type Rule = R;

    ghost count = { λ s. length s.places.now };

    ghost at = { λ s number. R.reads (record { bytes = s.file; place = slice_index s.places.now number }) };

    ghost lawful = { λ s number. R.reads_lawful (record { bytes = s.file; place = slice_index s.places.now number }) };

    fn count(&self) -> usize {
        self.places.len()
    }

    fn rule(&self, number: usize) -> Option<R> {
        R::read(Spot {
            bytes: self.file,
            place: usize::from(self.places[number]),
        })
    }
}

impl<'f, R: Recorded<'f>> Rules<Listed<'f, R>> {
    // One rule to a record.
    pub fn at(file: &'f [u8], places: &'f [u16]) -> Rules<Listed<'f, R>>
        ensures { Over file.entry.now places.entry.now result }
    {
        Rules(Listed {
            file,
            places,
            of: PhantomData,
        })
    }
}
