// A job, read from its file's bytes and standing on them.
ghost use Rattle.std.specs.Prelude.{◌≡◌, ◌≤◌, true, map, length};
ghost use Rattle.bounds.specs.Boards.{sound};
ghost use Rattle.job.specs.Tallies.{spaced, row_at};

use crate::tally::Tally;

// The most rules, and the most cells.
// Kept: one limit, since cells and rules are numbered by one walk; a board's cells and a family's rules have limits of their own.
pub const MOST_RULES: usize = 1024;

// Kept: a table and where its kinds end, in the job itself: a file is read without memory of its own, so that none is refused for want of it.
#[derive(Clone, Copy)]
pub struct Job<'f> {
    file: &'f [u8],
    tally: Tally,
    places: [u16; MOST_RULES],
    ghost short: { length file.now ≤ 65535 },
    ghost plates_first: { tally.plates ≤ tally.triples },
    ghost totals_last: { tally.triples ≤ tally.totals },
    ghost few: { tally.totals ≤ 1024 },
    ghost some_cells: { 1 ≤ tally.cells },
    ghost few_cells: { tally.cells ≤ 1024 },
    ghost sound_cells: { sound (map (row_at file.now) (spaced tally.cells tally.start)) ≡ true },
}

mod found;
mod reads;
