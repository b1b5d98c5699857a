// Scripts of calls on a board.
ghost use Rattle.run.specs.Promise.{Promise, Accounts, Determined};
ghost use Rattle.run.specs.Scripts.{Runs, RunsOn};

use crate::answer::Answer;
use crate::call::Call;
use crate::step::step;
use board::board::Board;
use bounds::row::Row;
use rule_families::family::Family;

// Makes the calls of the script in turn on the board, as many as there are places for answers, and tells how many.
// Kept: plan memory and scratch are two slices, as seek takes them; board, family and answers have other owners each.
#[tactic(auto, using(crate::proofs::Determined::determined, crate::proofs::Scripted::ran_none, crate::proofs::Scripted::all_ran, crate::proofs::Scripted::taken))]
pub fn run<F: Family>(
    board: &mut Board,
    family: &F,
    script: &[Call],
    answers: &mut [Answer],
    plan: &mut [u16],
    scratch: &mut [Row],
) -> usize
    ensures runs { Runs (F.meaning family.now) board.old board.new plan.old plan.new scratch.old scratch.new script.now answers.old answers.new result }
    ensures promise { Promise (F.meaning family.now) }
    ensures accounts { Accounts (F.meaning family.now) }
    ensures determined { Determined (F.meaning family.now) }
{
    let calls = script.len().min(answers.len());
    let mut used = 0;
    // Kept: after a loop over the answers zipped with the script a proof knows nothing of the answers.
    for (place, call) in script[..calls].iter().enumerate() {
        answers[place] = run_on(board, family, *call, &mut used, plan, scratch);
    }
    calls
}

// Makes one call more. A plan that it finds is used from then on, so that the counts stay of which its answer tells.
// Kept: plan memory and scratch are two slices, as seek takes them.
fn run_on<F: Family>(
    board: &mut Board,
    family: &F,
    call: Call,
    used: &mut usize,
    plan: &mut [u16],
    scratch: &mut [Row],
) -> Answer
    ensures { RunsOn (F.meaning family.now) board.old board.new plan.old plan.new scratch.old scratch.new call result used.old used.new }
{
    let answer = step(board, family, call, *used, plan, scratch);
    *used = answer.used(*used);
    answer
}
