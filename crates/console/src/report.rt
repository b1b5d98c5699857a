// What is printed of a job that is planned: its settled bounds and its first plan.
ghost use Rattle.std.specs.Prelude.{◌≡◌, [], ◌∷◌};
ghost use Rattle.console.specs.Reports.{Told};

use crate::families::rules_of;
use crate::room::Room;
use board::board::Board;
use boards::board_of;
use job::job::Job;
use records::refused::Refused;
use run::answer::Answer;
use run::call::Call;
use run::script::run;
use run::shown::Shown;
use std::fmt;

// The answers to a settle and a seek, the board that they left, and the plan memory.
#[derive(Drop)]
pub struct Report {
    pub answers: [Answer; 2],
    pub board: Board,
    pub plan: Vec<u16>,
}

// Reads the job, settles its board and seeks the first plan, in the memory that is lent.
pub fn plan_job(file: &[u8], room: Room) -> Result<Report, Refused>
    ensures { Told file.now room result }
{
    let job = Job::read(file)?;
    let Room {
        rows,
        saved,
        mut plan,
        mut scratch,
    } = room;
    // Kept: no From makes a NoRoom what is told.
    let mut board = match board_of(&job, rows, saved) {
        Ok(board) => board,
        Err(no_room) => return Err(no_room.refused),
    };
    // A place for each call, which its answer takes.
    let mut answers = [Answer::NoPlan; 2];
    run(
        &mut board,
        &rules_of(&job),
        &planning(),
        &mut answers,
        &mut plan,
        &mut scratch,
    );
    Ok(Report {
        answers,
        board,
        plan,
    })
}

// What plans a job: a settle tells the bounds, and a seek the plan.
fn planning() -> [Call; 2]
    ensures { result ≡ (Call.Settle ∷ (Call.Seek ∷ [])) }
{
    [Call::Settle, Call::Seek]
}

impl fmt::Display for Report {
    fn fmt<W: fmt::Write>(&self, f: &mut fmt::Formatter<W>) -> fmt::Result {
        for answer in self.answers {
            self.write_answer(f, answer)?;
        }
        Ok(())
    }
}

impl Report {
    // The lines of one answer: of a settle the narrowings and the bounds, of a seek the plan. A void board has no plan to tell.
    fn write_answer<W: fmt::Write>(
        &self,
        f: &mut fmt::Formatter<W>,
        answer: Answer,
    ) -> fmt::Result {
        match answer {
            Answer::Settled(narrowings) => {
                writeln!(f, "narrowings {narrowings}")?;
                self.write_bounds(f)
            }
            Answer::Void(narrowings) => {
                writeln!(f, "narrowings {narrowings}")?;
                writeln!(f, "void")
            }
            Answer::NoPlan if self.board.is_void() => Ok(()),
            _ => {
                let plans = &self.plan;
                let shown = Shown { answer, plans };
                writeln!(f, "{shown}")
            }
        }
    }

    fn write_bounds<W: fmt::Write>(&self, f: &mut fmt::Formatter<W>) -> fmt::Result {
        for (cell, row) in self.board.rows().iter().enumerate() {
            let low = row.low;
            let high = row.high;
            writeln!(f, "{cell} {low} {high}")?;
        }
        Ok(())
    }
}
