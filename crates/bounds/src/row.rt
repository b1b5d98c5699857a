// The fewest and the most copies of a design on a plate that can still be right, as memory holds them.
ghost use Rattle.std.specs.Prelude.{◌≡◌, nat_le};
ghost use Rattle.bounds.specs.Boards.{sound};
ghost use Rattle.bounds.specs.Cells.{common};

#[derive(Clone, Copy, PartialEq, Eq, Debug, Default)]
pub struct Row {
    pub low: u16,
    pub high: u16,
}

impl Row {
    // Whether it holds a count.
    pub fn is_sound(self) -> bool
        ensures { result ≡ nat_le self.low self.high }
    {
        self.low <= self.high
    }

    // Its counts from low to high; they may be none.
    pub fn common(self, low: u16, high: u16) -> Row
        ensures { result ≡ common self low high }
    {
        Row {
            low: self.low.max(low),
            high: self.high.min(high),
        }
    }
}

// Whether each row holds a count.
pub fn all_sound(rows: &[Row]) -> bool
    ensures { result ≡ sound rows.now }
{
    rows.iter().all(|row| row.is_sound())
}
