// A design and its mirror image: two cells whose counts differ by at most a given number.
ghost use Rattle.std.specs.Prelude.{◌≡◌, ◌+◌, ◌-◌};
ghost use Rattle.bounds.specs.Cells.{common};
ghost use Rattle.bounds.specs.Exact.{exact};
ghost use Rattle.rules.specs.Answers.{board_of};
ghost use Rattle.house.specs.Mirrors.{alike};

use bounds::row::Row;
use rules::arrays::if_sound;

#[derive(Clone, Copy, PartialEq, Eq, Debug)]
pub struct Mirror {
    pub left: u16,
    pub right: u16,
    pub most: u16,
}

impl Mirror {
    // The rows of the left and the right cell narrowed together; None where no two of their counts are near enough.
    #[tactic(auto, using(crate::proofs::Closed::mirror_array))]
    pub fn narrowed(self, rows: [Row; 2]) -> Option<[Row; 2]>
        ensures { board_of result ≡ exact (alike self.most) rows }
    {
        let [left, right] = rows;
        if_sound([self.near(left, right), self.near(right, left)])
    }

    // The row's counts from the other's low less `most` to its high and `most`. A sum may stop at the greatest number: no count is above it.
    fn near(self, row: Row, other: Row) -> Row
        ensures { result ≡ common row (other.low - self.most) (other.high + self.most) }
    {
        row.common(
            other.low.saturating_sub(self.most),
            other.high.saturating_add(self.most),
        )
    }
}
