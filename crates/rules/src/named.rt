// Rules that name their cells one by one.
ghost use Rattle.std.specs.Prelude.{◌≡◌, ◌≤◌, true, false, ◌≢◌, ◌⊎◌, length, take};
ghost use Rattle.bounds.specs.Boards.{cells, sound, none_row};
ghost use Rattle.bounds.specs.Exact.{exact};
ghost use Rattle.bounds.specs.Laws.{Idempotent};
ghost use Rattle.bounds.specs.Scoped.{Scoped, ScopedLaws, fits, gather, scatter, on_board};
ghost use Rattle.rule_families.specs.Narrows.{Narrows};
ghost use Rattle.rule_families.specs.Marks.{Marks, MarksNamed, Lists};

use bounds::row::Row;
use bounds::scope::{Scope, distinct, fits, names};
use rule_families::change::Change;

// The most cells that a rule names: a plate's slots, its variety and 64 counts.
pub const MOST_NAMED: usize = 66;

// Most rules name so few, or so many, and do not pay for the room that the largest plate needs.
const FEW_NAMED: usize = 4;

const SOME_NAMED: usize = 16;

pub trait Named: Scope {
    ghost scoped: { Self → Scoped };

    // Narrows the rows of the cells that the rule names, in its order; on void they stay as they were.
    fn narrow_own(&self, own: &mut [Row]) -> Change
        requires own { length own.old ≡ length (scoped self.now).scope }
        requires sound { sound own.old ≡ true }
        ensures { Narrows (scoped self.now).narrowing own.old own.new result };

    // Whether the rule is known to narrow the rows of its cells exactly.
    fn is_exact(&self) -> bool
        ensures { result ≡ true → (scoped self.now).narrowing ≡ exact (scoped self.now).relation }
    {
        false
    }

    // Its cells are those of the scope, and not too many.
    ghost names_them: { (r : Self) → Self.scope r ≡ (scoped r).scope };

    ghost few: { (r : Self) → length (scoped r).scope ≤ 66 };
}

// A rule with the laws, so that lists of such rules are families.
pub trait Lawful: Named {
    // What the rule asks, as `scoped` has it: data of a trait, as the laws are, can speak of no other trait's members.
    ghost asks: { Self → Scoped };

    ghost lawful: { (r : Self) → ScopedLaws (asks r) };

    ghost as_scoped: { (r : Self) → asks r ≡ Self.scoped r };
}

// Whether the rule, on a board of so many cells, touches the cell.
pub fn touches<R: Named>(rule: &R, cells: usize, cell: usize) -> bool
    ensures { result ≡ (on_board (R.scoped rule.now)).touches cells cell }
{
    names(rule, 0, cell) && fits(rule, cells)
}

// Marks the cells that the rule touches, on a board of as many cells as there are marks.
pub fn mark<R: Named>(rule: &R, marks: &mut [bool])
    ensures { Marks (on_board (R.scoped rule.now)) marks.old marks.new }
{
    if fits(rule, marks.len()) {
        mark_named(rule, marks);
    }
}

#[tactic(auto, using(bounds::proofs::Scopes::fits_at, crate::proofs::Gathers::marks_more))]
fn mark_named<R: Scope>(rule: &R, marks: &mut [bool])
    requires { fits (R.scope rule.now) (length marks.old) ≡ true }
    ensures { MarksNamed (R.scope rule.now) marks.old marks.new }
{
    for i in 0..rule.arity() {
        marks[rule.cell(i)] = true;
    }
}

// Lists the cells that the rule touches, on a board of so many cells, at the front of the room, if it has a place for each.
#[tactic(auto, using(crate::proofs::Listing::lists_named))]
pub fn list<R: Named>(rule: &R, cells: usize, room: &mut [usize]) -> Option<usize>
    ensures { Lists (on_board (R.scoped rule.now)) cells room.new result }
{
    let arity = rule.arity();
    if arity > room.len() {
        return None;
    }
    if !fits(rule, cells) {
        return Some(0);
    }
    list_named(rule, room);
    Some(arity)
}

fn list_named<R: Scope>(rule: &R, room: &mut [usize])
    requires { length (R.scope rule.now) ≤ length room.old }
    ensures { take (length (R.scope rule.now)) room.new ≡ R.scope rule.now }
{
    for i in 0..rule.arity() {
        room[i] = rule.cell(i);
    }
}

// Whether the rule is known to be quiet on rows that it has narrowed: a cell that is named twice could be narrowed further.
#[tactic(auto, using(crate::proofs::Exactness::exact_idempotent))]
pub fn is_idempotent<R: Named>(rule: &R) -> bool
    ensures { result ≡ true → Idempotent (on_board (R.scoped rule.now)) }
{
    rule.is_exact() && distinct(rule)
}

// Narrows the rows of the named cells; a rule that names a missing cell leaves every board as it is.
pub fn narrow<R: Named>(rule: &R, rows: &mut [Row]) -> Change
    requires { sound rows.old ≡ true }
    ensures { Narrows (on_board (R.scoped rule.now)).narrowed rows.old rows.new result }
{
    let arity = rule.arity();
    if arity <= FEW_NAMED {
        narrow_in::<R, FEW_NAMED>(rule, arity, rows)
    } else if arity <= SOME_NAMED {
        narrow_in::<R, SOME_NAMED>(rule, arity, rows)
    } else {
        narrow_in::<R, MOST_NAMED>(rule, arity, rows)
    }
}

// The same in room for N rows.
// Kept: the rows stand at the front of room on the stack, since settling takes no heap.
#[tactic(auto, using(bounds::proofs::Lifted::own_sound, bounds::proofs::Lifted::lifted_quiet))]
fn narrow_in<R: Named, const N: usize>(rule: &R, arity: usize, rows: &mut [Row]) -> Change
    requires arity { arity ≡ length (R.scoped rule.now).scope }
    requires room { arity ≤ N }
    requires few { N ≤ 66 }
    requires sound { sound rows.old ≡ true }
    ensures { Narrows (on_board (R.scoped rule.now)).narrowed rows.old rows.new result }
{
    let mut found = [Row::default(); N];
    let mut work = [Row::default(); N];
    let before = &mut found[..arity];
    let own = &mut work[..arity];
    if !gathered(rule, rows, before, own) {
        return Change::Quiet;
    }
    match rule.narrow_own(own) {
        Change::Narrowed => written_back(rule, rows, before, own),
        unchanged => unchanged,
    }
}

// Writes the rows to the named cells. The board may be what it was: a cell that is named twice may get its row back.
#[tactic(auto, using(crate::proofs::Compared::scatter_back))]
fn written_back<R: Scope>(rule: &R, rows: &mut [Row], before: &[Row], own: &[Row]) -> Change
    requires own { length own.now ≡ length (R.scope rule.now) }
    requires whole { fits (R.scope rule.now) (length rows.old) ≡ true }
    requires before { before.now ≡ gather none_row (R.scope rule.now) rows.old }
    ensures { Narrows (λ _. cells (scatter (R.scope rule.now) own.now rows.old)) rows.old rows.new result }
{
    scattered(rule, rows, own);
    if stand(rule, rows, before) {
        Change::Quiet
    } else {
        Change::Narrowed
    }
}

// Whether the rows stand at the named cells.
#[tactic(auto, using(bounds::proofs::Scopes::fits_at, bounds::proofs::Scopes::at_gather, crate::proofs::Compared::row_tested, crate::proofs::Gathers::not_gathered))]
fn stand<R: Scope>(rule: &R, rows: &[Row], own: &[Row]) -> bool
    requires own { length own.now ≡ length (R.scope rule.now) }
    requires whole { fits (R.scope rule.now) (length rows.now) ≡ true }
    ensures { ((result ≡ true) × (own.now ≡ gather none_row (R.scope rule.now) rows.now)) ⊎ ((result ≡ false) × (own.now ≢ gather none_row (R.scope rule.now) rows.now)) }
{
    for (i, row) in own.iter().enumerate() {
        if rows[rule.cell(i)] != *row {
            return false;
        }
    }
    true
}

// Copies the rows of the named cells twice, if the board has all of them.
// Kept: the rule, the board's rows and the rule's own are lent apart, as each of the calls writes another of them.
#[tactic(auto, using(bounds::proofs::Scopes::at_gather))]
fn gathered<R: Scope>(rule: &R, rows: &[Row], before: &mut [Row], own: &mut [Row]) -> bool
    requires before { length before.old ≡ length (R.scope rule.now) }
    requires own { length own.old ≡ length (R.scope rule.now) }
    ensures whole { result ≡ fits (R.scope rule.now) (length rows.now) }
    ensures before { result ≡ true → before.new ≡ gather none_row (R.scope rule.now) rows.now }
    ensures rows { result ≡ true → own.new ≡ gather none_row (R.scope rule.now) rows.now }
{
    for (i, row) in own.iter_mut().enumerate() {
        let Some(found) = rows.get(rule.cell(i)) else {
            return false;
        };
        before[i] = *found;
        *row = *found;
    }
    true
}

// And writes them.
#[tactic(auto, using(bounds::proofs::Scopes::fits_at, bounds::proofs::Scopes::scatter_more))]
fn scattered<R: Scope>(rule: &R, rows: &mut [Row], own: &[Row])
    requires own { length own.now ≡ length (R.scope rule.now) }
    requires whole { fits (R.scope rule.now) (length rows.old) ≡ true }
    ensures { rows.new ≡ scatter (R.scope rule.now) own.now rows.old }
{
    for (i, row) in own.iter().enumerate() {
        rows[rule.cell(i)] = *row;
    }
}
