// What a call on a board answered.
// Kept: a case for each line that a script is answered; with Option or Settled inside, each line would be matched twice.
ghost use Rattle.std.specs.Prelude.{◌≡◌};
ghost use Rattle.run.specs.Results.{of_grant, of_open, of_settle, used_by};

use board::board::Slip;
use board::refusal::Refusal;
use settling::settled::Settled;

#[derive(Clone, Copy, PartialEq, Eq, Debug)]
pub enum Answer {
    // Tightened, kept or dropped.
    Granted,
    // Opened: the serial of the trial's slip.
    Slip(u32),
    Cell { cell: usize, low: u16, high: u16 },
    // Settled, or voided, after so many narrowings.
    Settled(u32),
    Void(u32),
    // The first plan, whose counts stand in the plan memory from one place up to another, and that there is none.
    Plan { from: usize, to: usize },
    NoPlan,
    Refused(Refusal),
}

// Kept: here and of a slip, a match of two arms; `map_or_else` has the refusal first, and `map` with `unwrap_or_else` is two calls that say no more.
impl From<Result<(), Refusal>> for Answer {
    ghost from_gives = { λ r a. a ≡ of_grant r };

    fn from(res: Result<(), Refusal>) -> Answer {
        match res {
            Ok(()) => Answer::Granted,
            Err(why) => Answer::Refused(why),
        }
    }
}

impl From<Result<Slip, Refusal>> for Answer {
    ghost from_gives = { λ r a. a ≡ of_open r };

    fn from(res: Result<Slip, Refusal>) -> Answer {
        match res {
            Ok(slip) => Answer::Slip(slip.into_serial()),
            Err(why) => Answer::Refused(why),
        }
    }
}

impl From<Settled> for Answer {
    ghost from_gives = { λ s a. a ≡ of_settle s };

    fn from(settled: Settled) -> Answer {
        match settled {
            Settled::Settled(applied) => Answer::Settled(applied),
            Settled::Void(applied) => Answer::Void(applied),
        }
    }
}

impl Answer {
    // How much of the plan memory plans take after the answer, where they took so much before.
    pub fn used(self, before: usize) -> usize
        ensures { result ≡ used_by before self }
    {
        match self {
            Answer::Plan { to, .. } => to,
            _ => before,
        }
    }
}
