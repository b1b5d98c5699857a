// What makes a board of memory, and gives the memory back.
ghost use Rattle.std.specs.Prelude.{◌≡◌, length, take};
ghost use Rattle.board.specs.Makes.{unfit, Makes, Tells};

use super::Board;
use crate::control::Control;
use crate::unfit::{Refused, Unfit, room_for};
use bounds::row::{Row, all_sound};

// Whether the first rows and the memory make a board of so many cells.
fn fit(rows: &[Row], saved: &[Row], cells: usize) -> Result<(), Unfit>
    ensures { Tells (unfit cells (take cells rows.now) (length rows.now) (length saved.now)) result }
{
    room_for(cells, rows.len(), saved.len())?;
    if all_sound(&rows[..cells]) {
        Ok(())
    } else {
        Err(Unfit::Unsound)
    }
}

impl Board {
    // A board of the first rows of the board memory, with trial memory for sixteen times as many.
    // Kept: the two memories are handed in and given back by name; in a struct each of the calls would name the struct and then the two.
    pub fn over(rows: Vec<Row>, saved: Vec<Row>, cells: usize) -> Result<Board, Refused>
        ensures { Makes rows saved cells result }
    {
        if let Err(why) = fit(&rows, &saved, cells) {
            return Err(Refused { why, rows, saved });
        }
        let control = Control::new(cells);
        Ok(Board {
            rows,
            saved,
            control,
        })
    }

    // The memory that the board was made of: its rows, and what its trials saved.
    pub fn into_memory(self) -> (Vec<Row>, Vec<Row>)
        ensures { (result.0 ≡ self.rows) × (result.1 ≡ self.saved) }
    {
        let Board {
            rows,
            saved,
            control: _,
        } = self;
        (rows, saved)
    }
}
