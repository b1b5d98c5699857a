// What was found in the file.
ghost use Rattle.std.specs.Prelude.{◌≡◌, ◌<◌, ◌≤◌, length, MatchOption, slice_index};
ghost use Rattle.job.specs.Jobs.{job_file, job_found};
ghost use Rattle.job.specs.Tallies.{row_at};

use super::Job;
use bounds::row::Row;
use records::body::BodyKind;
use records::bytes::Spot;
use records::cells::Cells;

impl<'f> Job<'f> {
    // The bytes that the rules stand in.
    pub fn file(&self) -> &'f [u8]
        ensures { result.now ≡ job_file self.now }
    {
        self.file
    }

    // How many cells there are.
    #[tactic(auto, using(crate::proofs::Gathered::length_spaced))]
    pub fn cells(&self) -> u16
        ensures { result ≡ length (job_found self.now).cells }
    {
        self.tally.cells
    }

    // The bounds of a cell.
    #[tactic(auto, using(crate::proofs::Gathered::length_spaced, crate::proofs::Gathered::get_or_spaced))]
    pub fn cell(&self, number: u16) -> Option<Row>
        ensures { MatchOption result (length (job_found self.now).cells ≤ number) (λ row. (number < length (job_found self.now).cells) × (row ≡ row_at (job_file self.now) (slice_index (job_found self.now).cells number))) }
    {
        if number >= self.tally.cells {
            return None;
        }
        Some(Cells::read(Spot {
            bytes: self.file,
            place: usize::from(self.tally.start) + Cells::HEAD * usize::from(number),
        }))
    }

    // Where the plates stand in the file.
    // Kept: this and the next two each name their own ends of the table, which one function of a kind would have to match on.
    #[tactic(auto, using(crate::proofs::Gathered::part_is))]
    pub fn plate_places(&self) -> &[u16]
        ensures { result.now ≡ (job_found self.now).plates }
    {
        &self.places[..self.tally.plates]
    }

    #[tactic(auto, using(crate::proofs::Gathered::part_is))]
    pub fn triple_places(&self) -> &[u16]
        ensures { result.now ≡ (job_found self.now).triples }
    {
        &self.places[self.tally.plates..self.tally.triples]
    }

    #[tactic(auto, using(crate::proofs::Gathered::part_is))]
    pub fn total_places(&self) -> &[u16]
        ensures { result.now ≡ (job_found self.now).totals }
    {
        &self.places[self.tally.triples..self.tally.totals]
    }
}
