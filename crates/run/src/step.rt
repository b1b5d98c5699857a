// One call of a script.
ghost use Rattle.std.specs.Prelude.{◌≡◌};
ghost use Rattle.run.specs.Results.{of_ask};
ghost use Rattle.run.specs.Scripts.{Made, MadeAlone};

use crate::answer::Answer;
use crate::call::Call;
use board::board::{Board, Slip};
use board::refusal::Refusal;
use bounds::cell::Cell;
use bounds::row::Row;
use rule_families::family::Family;
use search::seek::seek;

// Makes one call of a script on the board. A seek is lent the plan memory past what earlier plans use of it.
// Kept: plan memory and scratch are two slices, as seek takes them.
pub fn step<F: Family>(
    board: &mut Board,
    family: &F,
    call: Call,
    used: usize,
    plan: &mut [u16],
    scratch: &mut [Row],
) -> Answer
    ensures { Made (F.meaning family.now) board.old board.new used plan.old plan.new scratch.old scratch.new call result }
{
    // Kept: calls are data, read from a script; each is answered by a method of its own.
    match call {
        Call::Tighten { cell, low, high } => board.tighten(cell, low, high).into(),
        Call::Open => board.open().into(),
        Call::Keep(serial) => kept(board, serial),
        Call::Drop(serial) => dropped(board, serial),
        Call::Ask(cell) => asked(cell, board.ask(cell)),
        Call::Settle => board.settle(family).into(),
        Call::Seek => sought(board, family, used, plan, scratch),
    }
}

// A script names a trial by its serial, which is made a slip again.
fn kept(board: &mut Board, serial: u32) -> Answer
    ensures { MadeAlone board.old board.new (Call.Keep serial) result }
{
    board.keep(Slip::of(serial)).into()
}

fn dropped(board: &mut Board, serial: u32) -> Answer
    ensures { MadeAlone board.old board.new (Call.Drop serial) result }
{
    board.drop(Slip::of(serial)).into()
}

fn sought<F: Family>(
    board: &Board,
    family: &F,
    used: usize,
    plan: &mut [u16],
    scratch: &mut [Row],
) -> Answer
    ensures { Made (F.meaning family.now) board.now board.now used plan.old plan.new scratch.old scratch.new Call.Seek result }
{
    let start = used.min(plan.len());
    let (_, free) = plan.split_at_mut(start);
    match seek(board, family, free, scratch) {
        Ok(true) => Answer::Plan {
            from: used,
            to: used + board.cells(),
        },
        Ok(false) => Answer::NoPlan,
        Err(why) => Answer::Refused(why),
    }
}

// Kept: as a From it would take a pair of the cell and the result, which is no plainer.
fn asked(cell: usize, res: Result<Cell, Refusal>) -> Answer
    ensures { result ≡ of_ask cell res }
{
    match res {
        Ok(counts) => Answer::Cell {
            cell,
            low: counts.low(),
            high: counts.high(),
        },
        Err(why) => Answer::Refused(why),
    }
}
