// What a board answers of a cell.
ghost use Rattle.std.specs.Prelude.{◌≡◌, ◌<◌, length, slice_index_or};
ghost use Rattle.bounds.specs.Boards.{none_row};
ghost use Rattle.bounds.specs.Cells.{row_of};
ghost use Rattle.board.specs.Held.{state, event_of_ask, Did};

use super::Board;
use crate::refusal::Refusal;
use bounds::cell::Cell;

impl Board {
    pub(super) fn at(&self, cell: usize) -> Cell
        requires { cell < length (state self.now).rows }
        ensures { row_of result ≡ slice_index_or (state self.now).rows cell none_row }
    {
        Cell::try_from(self.rows()[cell]).unwrap()
    }

    pub fn ask(&self, cell: usize) -> Result<Cell, Refusal>
        ensures { Did self.now (event_of_ask cell result) self.now }
    {
        if cell >= self.cells() {
            return Err(Refusal::Cell);
        }
        if self.is_void() {
            return Err(Refusal::Void);
        }
        Ok(self.at(cell))
    }
}
