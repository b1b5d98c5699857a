// How many times a settle applied a rule, and whether the last application voided the board.
// Kept: a settle cannot fail, a void board is an answer with a count of its own, and no caller would use `?`.
#[derive(Clone, Copy, PartialEq, Eq, Debug)]
pub enum Settled {
    Settled(u32),
    Void(u32),
}
