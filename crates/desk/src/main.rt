// Makes the calls of a script, one to a line on standard input, on the board of the job file that the argument names.
#![tactic(auto)]

mod lines;

use anyhow::anyhow;
use boards::board_of;
use bounds::row::Row;
use console::families::rules_of;
use console::room::Sizes;
use job::job::Job;
use lines::Line;
use records::refused::Refused;
use run::answer::Answer;
use run::script::run;
use run::shown::Shown;
use std::io::{BufRead, BufReader};
use std::{env, fs};

// The desk has room for every board.
const MOST_CELLS: u16 = board::unfit::MOST_CELLS as u16;

const HELP: &str =
    "tighten CELL LOW HIGH\nopen\nkeep SERIAL\ndrop SERIAL\nask CELL\nsettle\nseek\nhelp\n";

fn main(rt: HostRuntime) -> anyhow::Result<()> {
    let Some(path) = env::args(&rt)?.nth(1) else {
        return Err(anyhow!(
            "desk JOB: the script is read from standard input; its call help lists the calls"
        ));
    };
    let file = fs::read(&rt, path.as_str())?;
    match Job::read(&file) {
        Ok(job) => answer_all(&rt, &job),
        Err(fault) => refuse(&rt, &fault.refused()),
    }
}

fn refuse(rt: &HostRuntime, refused: &Refused) -> anyhow::Result<()> {
    rt.println(refused)?;
    Err(anyhow!("the job is refused"))
}

fn answer_all(rt: &HostRuntime, job: &Job<'_>) -> anyhow::Result<()> {
    let heap = rt.alloc();
    let sizes = Sizes::for_cells(MOST_CELLS);
    let none = Row::default();
    let rows = vec![in heap; none; sizes.rows]?;
    let saved = vec![in heap; none; sizes.saved]?;
    let mut plans = vec![in heap; 0; sizes.plan]?;
    let mut scratch = vec![in heap; none; sizes.scratch]?;
    let mut board = match board_of(job, rows, saved) {
        Ok(board) => board,
        Err(no_room) => return refuse(rt, &no_room.refused),
    };
    let rules = rules_of(job);
    let lines = BufReader::new(heap, rt.stdin())?.lines(heap);
    for (number, line) in (1u64..).zip(lines) {
        let line = line?;
        match Line::read(line.as_str()) {
            Some(Line::Call(call)) => {
                let mut answers = [Answer::NoPlan];
                run(
                    &mut board,
                    &rules,
                    &[call],
                    &mut answers,
                    &mut plans,
                    &mut scratch,
                );
                let [answer] = answers;
                rt.println(&Shown {
                    answer,
                    plans: &plans,
                })?;
            }
            Some(Line::Help) => rt.print(HELP)?,
            None => println!(rt; "not a call: line {number}: {line}")?,
        }
    }
    Ok(())
}
