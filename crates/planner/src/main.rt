// Plans the job on standard input: prints its settled bounds and its first plan, or why it is refused.
#![tactic(auto)]

use anyhow::anyhow;
use bounds::row::Row;
use console::report::plan_job;
use console::room::{MOST_PLANNED, Room, Sizes};
use std::io::Read;

fn main(rt: HostRuntime) -> anyhow::Result<()> {
    let heap = rt.alloc();
    let mut file = Vec::new(heap);
    rt.stdin().read_to_end(&mut file)?;
    let sizes = Sizes::for_cells(MOST_PLANNED);
    let none = Row::default();
    let room = Room {
        rows: vec![in heap; none; sizes.rows]?,
        saved: vec![in heap; none; sizes.saved]?,
        plan: vec![in heap; 0; sizes.plan]?,
        scratch: vec![in heap; none; sizes.scratch]?,
    };
    match plan_job(&file, room) {
        Ok(report) => Ok(rt.print(&report)?),
        Err(refused) => {
            rt.println(&refused)?;
            Err(anyhow!("the job is refused"))
        }
    }
}
