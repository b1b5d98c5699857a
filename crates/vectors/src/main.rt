// Plans many jobs, one after another on standard input, each after its length in 4 bytes, lowest byte first.
#![tactic(auto)]

mod frames;

use bounds::row::Row;
use console::report::plan_job;
use console::room::{MOST_PLANNED, Room, Sizes};
use frames::Frames;
use std::io::Read;

fn main(rt: HostRuntime) -> anyhow::Result<()> {
    let heap = rt.alloc();
    let mut input = Vec::new(heap);
    rt.stdin().read_to_end(&mut input)?;
    let sizes = Sizes::for_cells(MOST_PLANNED);
    let none = Row::default();
    for (number, job) in Frames(&input).enumerate() {
        rt.println(format_args!("job {number}"))?;
        let room = Room {
            rows: vec![in heap; none; sizes.rows]?,
            saved: vec![in heap; none; sizes.saved]?,
            plan: vec![in heap; 0; sizes.plan]?,
            scratch: vec![in heap; none; sizes.scratch]?,
        };
        match plan_job(job, room) {
            Ok(report) => rt.print(&report)?,
            Err(refused) => rt.println(&refused)?,
        }
    }
    Ok(())
}
