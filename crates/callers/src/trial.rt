// The calls of a trial in which no rule has a say, so that their contracts name no family.
ghost use Rattle.std.specs.Prelude.{◌≡◌, true};
ghost use Rattle.board.specs.Calls.{is_open, after_drop};
ghost use Rattle.board.specs.Held.{state, event_of_open, event_of_tighten, event_of_drop};
ghost use Rattle.callers.specs.Trying.{DoesAlone, Leaves};

use board::board::{Board, Slip};
use board::refusal::Refusal;

pub(crate) fn open(board: &mut Board) -> Result<Slip, Refusal>
    ensures { DoesAlone board.old (event_of_open result) board.new }
{
    board.open()
}

// Tightens the cell, and tells whether that leaves it a count.
pub(crate) fn leaves_a_count(
    board: &mut Board,
    cell: usize,
    low: u16,
    high: u16,
) -> Result<bool, Refusal>
    ensures { Leaves (state board.old) cell low high result (state board.new) }
{
    tighten(board, cell, low, high)?;
    Ok(!board.is_void())
}

pub(crate) fn tighten(board: &mut Board, cell: usize, low: u16, high: u16) -> Result<(), Refusal>
    ensures { DoesAlone board.old (event_of_tighten cell low high result) board.new }
{
    board.tighten(cell, low, high)
}

// Goes back to where the slip's trial was opened.
pub(crate) fn drop(board: &mut Board, slip: Slip)
    requires { is_open slip.serial (state board.old).trials ≡ true }
    ensures { state board.new ≡ after_drop (state board.old) slip.serial }
{
    let _ = try_drop(board, slip);
}

fn try_drop(board: &mut Board, slip: Slip) -> Result<(), Refusal>
    ensures { DoesAlone board.old (event_of_drop slip result) board.new }
{
    board.drop(slip)
}
