// What a board knows of itself and of its open trials, of which it has at most sixteen.
ghost use Rattle.std.specs.Prelude.{◌≡◌, false, replicate};
ghost use Rattle.board.specs.Records.{none_trial};

use crate::unfit::MOST_TRIALS;

#[derive(Clone, Copy, PartialEq, Eq, Debug, Default)]
pub struct Trial {
    pub serial: u32,
    // Kept: what a trial saved of a void board is its rows all the same, so that the flag stands beside them too.
    pub void: bool,
}

#[derive(Clone, Copy, PartialEq, Eq, Debug, Default)]
pub struct Control {
    // Kept: a board's rows are the first of the caller's memory, which may hold more, so that their count stands apart.
    pub cells: usize,
    // Kept: the rows stay as they were on a void board and are the caller's memory, so that the flag stands beside them.
    pub void: bool,
    pub given: u32,
    pub depth: usize,
    // Kept: memory is fixed, so that the open trials are a table with a depth, of which one record is lent to be changed.
    pub trials: [Trial; MOST_TRIALS],
}

impl Control {
    pub(crate) fn new(cells: usize) -> Control
        ensures { result ≡ record { cells = cells; void = false; given = 0; depth = 0; trials = replicate 16 none_trial } }
    {
        Control {
            cells,
            ..Control::default()
        }
    }
}
