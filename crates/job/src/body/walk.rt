// The records of a body, one after another.
ghost use Rattle.std.specs.Prelude.{◌≡◌, ◌+◌, ◌≤◌, length, Some, MatchResult};
ghost use Rattle.records.specs.Refusals.{of_record};
ghost use Rattle.job.specs.Bodies.{body_form, body_bytes};
ghost use Rattle.job.specs.Reading.{record_faults, body_records};
ghost use Rattle.job.specs.Walked.{Walked};

use super::Body;
use crate::job::MOST_RULES;
use crate::span::Span;
use records::cells::Cells;
use records::fault::RecordFault;
use records::plates::Plates;
use records::totals::Totals;
use records::triples::Triples;

impl Body<'_> {
    // Checks its records, and writes their places into the table from `first` on; answers where they end there.
    pub fn walk(
        self,
        start: u16,
        cells: u16,
        first: usize,
        places: &mut [u16; MOST_RULES],
    ) -> Result<usize, RecordFault>
        requires short { start + length (body_bytes self) ≤ 65535 }
        requires few { first ≤ 1024 }
        ensures { MatchResult result (λ end. Walked (body_form self.entry) start cells (body_bytes self.entry) first places.old places.new end) (λ e. record_faults (body_form self.entry) start cells (body_bytes self.entry) first (body_records (body_form self.entry) (body_bytes self.entry)) ≡ Some (of_record e)) }
    {
        let span = Span {
            bytes: self.bytes(),
            start,
            cells,
        };
        // Kept: an arm for each kind, since from here on the kind is a type.
        match self {
            Body::Cells(_) => span.walk::<Cells>(first, places),
            Body::Plates(_) => span.walk::<Plates>(first, places),
            Body::Triples(_) => span.walk::<Triples>(first, places),
            Body::Totals(_) => span.walk::<Totals>(first, places),
        }
    }
}
