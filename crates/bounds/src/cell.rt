// A row that holds a count: its low is at most its high.
ghost use Rattle.std.specs.Prelude.{◌≤◌};

#[derive(Clone, Copy)]
pub struct Cell {
    low: u16,
    high: u16,
    ghost ordered: { low ≤ high },
}

mod rows;
