// A record, by where it begins in its body.
ghost use Rattle.std.specs.Prelude.{◌≡◌, ◌+◌, ◌<◌, ◌≤◌, length, Some, MatchResult, slice_set};
ghost use Rattle.records.specs.Refusals.{of_record};
ghost use Rattle.job.specs.Reading.{record_fault};
ghost use Rattle.job.specs.Walked.{Passes, Passed};

use crate::job::MOST_RULES;
use crate::named::Named;
use crate::span::Span;
use bounds::scope::{distinct, fits};
use records::body::BodyKind;
use records::bytes::Spot;
use records::fault::{ByteFault, RecordFault};

#[derive(Clone, Copy)]
pub struct Record<'f> {
    pub span: Span<'f>,
    pub at: usize,
    ghost inside: { at ≤ length span.bytes.now },
}

impl<'f> Record<'f> {
    fn spot(self) -> Spot<'f>
        ensures bytes { result.bytes.now ≡ self.entry.span.bytes.now }
        ensures place { result.place ≡ self.entry.at }
    {
        Spot {
            bytes: self.span.bytes,
            place: self.at,
        }
    }

    // The place in the file.
    pub fn place(self) -> u16
        ensures { result ≡ self.entry.span.start + self.entry.at }
    {
        // Kept: that the cast keeps the number is proved, where a try_from would add an error that cannot be.
        self.span.start + self.at as u16
    }

    // Where it ends.
    fn end<K: BodyKind>(self) -> Result<usize, ByteFault>
        ensures { MatchResult result (λ end. (end ≡ self.entry.at + K.BodyKind.form.size self.entry.span.bytes.now self.entry.at) × (self.entry.at < end) × (end ≤ length self.entry.span.bytes.now)) (λ e. Passes K.BodyKind.form self.entry.span.start self.entry.span.bytes.now self.entry.at e) }
    {
        let end = self.at + K::size(self.spot());
        if end <= self.span.bytes.len() {
            Ok(end)
        } else {
            Err(ByteFault::Record {
                kind: K::kind(),
                place: self.place(),
            })
        }
    }

    // Where it ends, if it has no fault; so many cells or rules stand before it.
    pub fn check<K: BodyKind>(self, number: usize) -> Result<usize, RecordFault>
        ensures { MatchResult result (λ end. Passed K.BodyKind.form self.entry.span.start self.entry.span.cells self.entry.span.bytes.now number self.entry.at end) (λ e. record_fault K.BodyKind.form self.entry.span.start self.entry.span.cells self.entry.span.bytes.now number self.entry.at ≡ Some (of_record e)) }
    {
        let end = self.end::<K>()?;
        let kind = K::kind();
        let place = self.place();
        let named = Named::<K>::at(self.spot());
        if number >= MOST_RULES
            || !K::keeps_limits(self.spot())
            || !fits(&named, usize::from(self.span.cells))
        {
            return Err(RecordFault::Number { kind, place });
        }
        if !distinct(&named) {
            return Err(RecordFault::Twice { kind, place });
        }
        Ok(end)
    }

    // Where it ends, if it has no fault; its place is written into the table.
    pub fn pass<K: BodyKind>(
        self,
        number: usize,
        places: &mut [u16; MOST_RULES],
    ) -> Result<usize, RecordFault>
        ensures { MatchResult result (λ end. Passed K.BodyKind.form self.entry.span.start self.entry.span.cells self.entry.span.bytes.now number self.entry.at end × (places.new ≡ slice_set places.old number (self.entry.span.start + self.entry.at))) (λ e. (record_fault K.BodyKind.form self.entry.span.start self.entry.span.cells self.entry.span.bytes.now number self.entry.at ≡ Some (of_record e)) × (places.new ≡ places.old)) }
    {
        let end = self.check::<K>(number)?;
        places[number] = self.place();
        Ok(end)
    }
}
