// Callers as a program would write them: each spends every slip that it is given, once.
// Kept: that the board is left as found is said of it before and after a call, which no type of a board can say.
#![tactic(auto)]

ghost use Rattle.board.specs.Held.{state};
ghost use Rattle.callers.specs.Trying.{LeftAsFound, Tells, TellsOfBoth};

mod trial;

use board::board::Board;
use board::refusal::Refusal;

// Whether the range leaves the cell a count, tried and taken back.
pub fn leaves_a_count(board: &mut Board, cell: usize, low: u16, high: u16) -> Result<bool, Refusal>
    ensures left { LeftAsFound board.old board.new }
    ensures told { Tells (state board.old) cell low high result }
{
    let slip = trial::open(board)?;
    if let Err(why) = trial::tighten(board, cell, low, high) {
        // A refused range spends the slip here: past the return nobody has it.
        trial::drop(board, slip);
        return Err(why);
    }
    let left = !board.is_void();
    trial::drop(board, slip);
    Ok(left)
}

// Whether the cell may have each end of the range as its count, tried one after the other and taken back.
pub fn grants_both_ends(
    board: &mut Board,
    cell: usize,
    low: u16,
    high: u16,
) -> Result<bool, Refusal>
    ensures left { LeftAsFound board.old board.new }
    ensures told { TellsOfBoth (state board.old) cell low high result }
{
    let first = trial::open(board)?;
    let at_low = trial::leaves_a_count(board, cell, low, low);
    trial::drop(board, first);
    if !at_low? {
        return Ok(false);
    }
    // The first slip is spent: the other end takes a trial of its own.
    let second = trial::open(board)?;
    let at_high = trial::leaves_a_count(board, cell, high, high);
    trial::drop(board, second);
    at_high
}
