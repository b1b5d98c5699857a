// What a board shows of itself.
ghost use Rattle.std.specs.Prelude.{◌≡◌, ◌≤◌, true, length};
ghost use Rattle.bounds.specs.Boards.{sound};
ghost use Rattle.board.specs.Held.{state};

use super::Board;
use bounds::row::Row;

impl Board {
    // How many cells the board has.
    pub fn cells(&self) -> usize
        ensures value { result ≡ length (state self.now).rows }
        ensures bound { result ≤ 1024 }
    {
        self.rows().len()
    }

    pub fn is_void(&self) -> bool
        ensures { result ≡ (state self.now).is_void }
    {
        self.control.void
    }

    // The rows, to be copied by a search.
    pub fn rows(&self) -> &[Row]
        ensures value { result.now ≡ (state self.now).rows }
        ensures sound { sound result.now ≡ true }
        ensures few { length result.now ≤ 1024 }
    {
        &self.rows[..self.control.cells]
    }
}
