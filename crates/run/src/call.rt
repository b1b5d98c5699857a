// A call on a board, as a script has it. A trial is named by the serial of its slip.
#[derive(Clone, Copy, PartialEq, Eq, Debug)]
pub enum Call {
    Tighten { cell: usize, low: u16, high: u16 },
    Open,
    Keep(u32),
    Drop(u32),
    Ask(usize),
    Settle,
    Seek,
}
