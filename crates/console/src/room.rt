// The memory that a program lends for a job.
ghost use Rattle.std.specs.Prelude.{◌≡◌, ◌+◌, ◌*◌};

use board::unfit::MOST_TRIALS;
use bounds::row::Row;

// The most cells of a job that the planner has room for.
pub const MOST_PLANNED: u16 = 100;

#[derive(Drop)]
pub struct Room {
    pub rows: Vec<Row>,
    pub saved: Vec<Row>,
    pub plan: Vec<u16>,
    pub scratch: Vec<Row>,
}

// How long each of its parts has to be.
#[derive(Clone, Copy, PartialEq, Eq, Debug)]
pub struct Sizes {
    pub rows: usize,
    pub saved: usize,
    pub plan: usize,
    pub scratch: usize,
}

impl Sizes {
    // For boards of up to so many cells, of which there are 1,024 at most.
    pub fn for_cells(cells: u16) -> Sizes
        ensures rows { result.rows ≡ cells }
        ensures saved { result.saved ≡ 16 * cells }
        ensures plan { result.plan ≡ cells }
        ensures scratch { result.scratch ≡ (cells + 1) * cells }
    {
        let cells = usize::from(cells);
        Sizes {
            rows: cells,
            saved: MOST_TRIALS * cells,
            plan: cells,
            scratch: (cells + 1) * cells,
        }
    }
}
