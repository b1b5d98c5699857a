// A body's bytes where they stand: where they start in the file, and how many cells are known there.
ghost use Rattle.std.specs.Prelude.{◌≡◌, ◌+◌, ◌≤◌, length, Some, MatchResult};
ghost use Rattle.records.specs.Refusals.{of_record};
ghost use Rattle.job.specs.Reading.{record_faults, body_records};
ghost use Rattle.job.specs.Walked.{Walked};

use crate::job::MOST_RULES;
use crate::record::Record;
use records::body::BodyKind;
use records::fault::RecordFault;

#[derive(Clone, Copy)]
pub struct Span<'f> {
    pub bytes: &'f [u8],
    pub start: u16,
    pub cells: u16,
    ghost short: { start + length bytes.now ≤ 65535 },
}

impl Span<'_> {
    // Checks its records, and writes their places into the table from `first` on; answers where they end there.
    #[tactic(auto, using(crate::proofs::Walks::starts, crate::proofs::Walks::moves))]
    pub fn walk<K: BodyKind>(
        self,
        first: usize,
        places: &mut [u16; MOST_RULES],
    ) -> Result<usize, RecordFault>
        requires { first ≤ 1024 }
        ensures { MatchResult result (λ end. Walked K.BodyKind.form self.entry.start self.entry.cells self.entry.bytes.now first places.old places.new end) (λ e. record_faults K.BodyKind.form self.entry.start self.entry.cells self.entry.bytes.now first (body_records K.BodyKind.form self.entry.bytes.now) ≡ Some (of_record e)) }
    {
        let mut number = first;
        let mut at = 0;
        // Kept: each step is as long as its record says, and a record past the table's end is still to be refused.
        'records: loop {
            let record = Record { span: self, at };
            let end = record.pass::<K>(number, places)?;
            number += 1;
            if end >= self.bytes.len() {
                return Ok(number);
            }
            at = end;
        }
    }
}
