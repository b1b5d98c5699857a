// Rows as cells, and back.
ghost use Rattle.std.specs.Prelude.{◌≡◌, ◌<◌, min, max, MatchOption, MatchResult};
ghost use Rattle.bounds.specs.Cells.{row_of, common};

use super::Cell;
use crate::row::Row;

// A row that holds no count.
#[derive(Clone, Copy, PartialEq, Eq, Debug)]
pub struct Empty;

impl TryFrom<Row> for Cell {
    type Error = Empty;

    ghost try_from_gives = { λ row r. MatchResult r (λ c. row_of c ≡ row) (λ _. row.high < row.low) };

    fn try_from(row: Row) -> Result<Cell, Empty> {
        let Row { low, high } = row;
        if low <= high {
            Ok(Cell { low, high })
        } else {
            Err(Empty)
        }
    }
}

impl From<Cell> for Row {
    ghost from_gives = { λ c r. r ≡ row_of c };

    fn from(cell: Cell) -> Row {
        let Cell { low, high } = cell;
        Row { low, high }
    }
}

impl Cell {
    pub fn low(self) -> u16
        ensures { result ≡ self.low }
    {
        self.low
    }

    pub fn high(self) -> u16
        ensures { result ≡ self.high }
    {
        self.high
    }

    // The counts that the cell and the range have in common.
    pub fn common(self, low: u16, high: u16) -> Option<Cell>
        ensures { MatchOption result (min self.high high < max self.low low) (λ c. row_of c ≡ common (row_of self) low high) }
    {
        Cell::try_from(Row::from(self).common(low, high)).ok()
    }
}
