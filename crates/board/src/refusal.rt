// Why a call on a board was refused.
ghost use Rattle.std.specs.Prelude.{◌≡◌};
ghost use Rattle.board.specs.Held.{number};

#[derive(Clone, Copy, PartialEq, Eq, Debug)]
pub enum Refusal {
    // Ask or tighten names a missing cell.
    Cell = 9,
    // A tightening's low exceeds its high.
    Range = 10,
    // Ask or tighten meets a void board.
    Void = 11,
    // Sixteen trials are open.
    Depth = 12,
    // All serials are given out.
    Serial = 13,
    // The slip has no open trial's serial.
    Gone = 14,
    // Plan memory or scratch is too small to seek.
    Room = 15,
}

impl Refusal {
    // Its number in the list of what is refused.
    // Kept: a method, since an `into` would not say that a number is told.
    pub fn number(self) -> u8
        ensures { result ≡ number self }
    {
        self as u8
    }
}
