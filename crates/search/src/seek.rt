// The first plan in a board, by a search that settles at every step.
ghost use Rattle.std.specs.Prelude.{◌≡◌, ◌+◌, ◌*◌, ◌%◌, ◌<◌, ◌≤◌, true, length, take, drop, position, slice_index_or};
ghost use Rattle.bounds.specs.Boards.{cells, sound, lows, none_row};
ghost use Rattle.board.specs.Calls.{Does};
ghost use Rattle.board.specs.Held.{state};
ghost use Rattle.settling.specs.Asleep.{AsleepBut};
ghost use Rattle.settling.specs.Plans.{Still};
ghost use Rattle.settling.specs.Folded.{FoldedWatching};
ghost use Rattle.search.specs.Seeks.{event_of_seek, Memory, is_open, opens, fixed_at, raised_at, Searched};

use board::board::Board;
use board::refusal::Refusal;
use bounds::row::Row;
use rule_families::family::{Family, MOST_RULES};
use settling::folded::FoldedWatchers;
use settling::settle::{settle_rows, settle_stirred};
use settling::settled::Settled;
use settling::watchers::{FEW_CELLS, FEW_RULES, MOST_CELLS, Room, SOME_CELLS, SOME_RULES};

// Whether the board holds a plan: the first is then written at the front of the plan memory.
// Scratch holds the board's rows and a level for each of its cells.
// Kept: of plan memory that comes back as an Option<&[u16]> the checker makes no proof, so no caller knows what is left of it.
// Kept: with both memories in one lent struct every contract would also say that they are the same slices, as long as before.
pub fn seek<F: Family>(
    board: &Board,
    family: &F,
    plan: &mut [u16],
    scratch: &mut [Row],
) -> Result<bool, Refusal>
    ensures does { Does (F.meaning family.now) (state board.now) (event_of_seek (length (state board.now).rows) plan.new scratch.new result) (state board.now) }
    ensures memory { Memory (length (state board.now).rows) plan.old plan.new scratch.old scratch.new result }
{
    let rows = board.rows();
    let cells = rows.len();
    if plan.len() < cells || scratch.len() < (cells + 1) * cells {
        return Err(Refusal::Room);
    }
    if board.is_void() {
        return Ok(false);
    }
    let (level, rest) = scratch.split_at_mut(cells);
    level.copy_from_slice(rows);
    Ok(first_plan(family, level, plan, rest))
}

// Whether the level holds a plan. A first settle, which takes no table, may tell; the search takes the least that serves.
fn first_plan<F: Family>(family: &F, level: &mut [Row], plan: &mut [u16], rest: &mut [Row]) -> bool
    requires sound { sound level.old ≡ true }
    requires few { length level.old ≤ 1024 }
    requires counts { length level.old ≤ length plan.old }
    requires room { opens level.old * length level.old ≤ length rest.old }
    ensures { Searched (F.meaning family.now) level.old plan.old plan.new result }
{
    if let Settled::Void(_) = settle_rows(family, level) {
        return false;
    }
    match first_open(level) {
        None => {
            write_lows(level, plan);
            true
        }
        Some(_) => search_in_room(family, level, plan, rest),
    }
}

fn search_in_room<F: Family>(
    family: &F,
    level: &mut [Row],
    plan: &mut [u16],
    rest: &mut [Row],
) -> bool
    requires sound { sound level.old ≡ true }
    requires few { length level.old ≤ 1024 }
    requires counts { length level.old ≤ length plan.old }
    requires room { opens level.old * length level.old ≤ length rest.old }
    requires still { Still (F.meaning family.now) (cells level.old) }
    ensures { Searched (F.meaning family.now) level.old plan.old plan.new result }
{
    match Room::of(level.len(), family.size()) {
        Room::Few => search_in::<F, FEW_CELLS, FEW_RULES>(family, level, plan, rest),
        Room::Some => search_in::<F, SOME_CELLS, SOME_RULES>(family, level, plan, rest),
        Room::Most => search_in::<F, MOST_CELLS, MOST_RULES>(family, level, plan, rest),
    }
}

// Kept: not inlined, so that a search has no more on the stack than the room that it takes.
#[inline(never)]
fn search_in<F: Family, const CELLS: usize, const RULES: usize>(
    family: &F,
    level: &mut [Row],
    plan: &mut [u16],
    rest: &mut [Row],
) -> bool
    requires sound { sound level.old ≡ true }
    requires few { length level.old ≤ 1024 }
    requires counts { length level.old ≤ length plan.old }
    requires room { opens level.old * length level.old ≤ length rest.old }
    requires cells { length level.old ≤ CELLS }
    requires rules { (F.meaning family.now).size ≤ RULES }
    requires words { RULES % 64 ≡ 0 }
    requires most { (CELLS ≤ 1024) × (RULES ≤ 4096) }
    requires still { Still (F.meaning family.now) (cells level.old) }
    ensures { Searched (F.meaning family.now) level.old plan.old plan.new result }
{
    let cells = level.len();
    let mut watchers = FoldedWatchers::<CELLS, RULES>::none(family);
    watchers.list_all(family, cells);
    let mut room = [Row::default(); CELLS];
    search(
        family,
        &watchers,
        None,
        &mut room[..cells],
        level,
        plan,
        rest,
    )
}

// Each try has a level of its own, at the front of the rest. After a settle only the rules that touch the cell branched on can narrow.
// Kept: a plan that a try returned as a borrow could not be lent to the next try of the loop.
fn search<F: Family, const CELLS: usize, const RULES: usize>(
    family: &F,
    watchers: &FoldedWatchers<CELLS, RULES>,
    mut stirred: Option<usize>,
    before: &mut [Row],
    level: &mut [Row],
    plan: &mut [u16],
    rest: &mut [Row],
) -> bool
    requires sound { sound level.old ≡ true }
    requires few { length level.old ≤ 1024 }
    requires counts { length level.old ≤ length plan.old }
    requires room { opens level.old * length level.old ≤ length rest.old }
    requires watching { FoldedWatching (F.meaning family.now) (length level.old) watchers.now }
    requires asleep { AsleepBut (F.meaning family.now) watchers.now stirred level.old }
    requires before { length before.old ≡ length level.old }
    ensures { Searched (F.meaning family.now) level.old plan.old plan.new result }
{
    let cells = level.len();
    loop {
        if let Settled::Void(_) = settle_stirred(family, watchers, stirred, before, level) {
            return false;
        }
        let Some(cell) = first_open(level) else {
            write_lows(level, plan);
            return true;
        };
        let (tried, deeper) = rest.split_at_mut(cells);
        branch(level, cell, tried);
        stirred = Some(cell);
        if search(family, watchers, stirred, before, tried, plan, deeper) {
            return true;
        }
    }
}

// Branches on an open cell: its lowest count is to be tried in a level of its own, and the others are left.
fn branch(level: &mut [Row], cell: usize, tried: &mut [Row])
    requires cell { cell < length level.old }
    requires open { (slice_index_or level.old cell none_row).low < (slice_index_or level.old cell none_row).high }
    requires room { length tried.old ≡ length level.old }
    ensures tried { tried.new ≡ fixed_at level.old cell }
    ensures left { level.new ≡ raised_at level.old cell }
{
    tried.copy_from_slice(level);
    let row = level[cell];
    tried[cell].high = row.low;
    level[cell].low = row.low + 1;
}

fn first_open(rows: &[Row]) -> Option<usize>
    ensures { result ≡ position is_open rows.now }
{
    rows.iter().position(|row| row.low != row.high)
}

fn write_lows(rows: &[Row], plan: &mut [u16])
    requires { length rows.now ≤ length plan.old }
    ensures front { take (length rows.now) plan.new ≡ lows rows.now }
    ensures back { drop (length rows.now) plan.new ≡ drop (length rows.now) plan.old }
{
    // Kept: after a loop over the counts zipped with the rows a proof knows nothing of the counts.
    for (cell, row) in rows.iter().enumerate() {
        plan[cell] = row.low;
    }
}
