// Memory that makes no board, given back.
ghost use Rattle.board.specs.Makes.{roomless, Tells};

use bounds::row::Row;

pub const MOST_CELLS: usize = 1024;

// The most trials that are open at a time.
pub const MOST_TRIALS: usize = 16;

#[derive(Clone, Copy, PartialEq, Eq, Debug)]
pub enum Unfit {
    // Not 1 to 1,024 cells.
    Size,
    // Board memory holds fewer rows than cells, or trial memory fewer than 16 times that.
    Room,
    // A low above its high.
    Unsound,
}

#[derive(Drop)]
pub struct Refused {
    pub why: Unfit,
    pub rows: Vec<Row>,
    pub saved: Vec<Row>,
}

// Whether memory for so many rows, and for so many that trials save, has room for a board of so many cells.
pub fn room_for(cells: usize, rows: usize, saved: usize) -> Result<(), Unfit>
    ensures { Tells (roomless cells rows saved) result }
{
    if !(1..=MOST_CELLS).contains(&cells) {
        return Err(Unfit::Size);
    }
    if cells > rows || MOST_TRIALS * cells > saved {
        return Err(Unfit::Room);
    }
    Ok(())
}
