// What narrows rows until no rule narrows them.
ghost use Rattle.std.specs.Prelude.{◌≡◌, ◌+◌, ◌*◌, ◌%◌, ◌<◌, ◌≤◌, ◌==◌, ◌&&◌, true, length, slice_index};
ghost use Rattle.bounds.specs.Boards.{sound, spread};
ghost use Rattle.rule_families.specs.Narrows.{Narrows};
ghost use Rattle.settling.specs.Asleep.{Asleep, AsleepBut, Asked, AskedAt, Woken, WokenAmong, Taken, SameOutside, Within64, Marked};
ghost use Rattle.settling.specs.Settles.{Settles, SettlesOrBegins, SettlesOn};
ghost use Rattle.settling.specs.Folded.{FoldedWatching};

use crate::folded::FoldedWatchers;
use crate::settled::Settled;
use crate::watchers::{FEW_CELLS, FEW_RULES, MOST_CELLS, Room, SOME_CELLS, SOME_RULES};
use bounds::row::Row;
use rule_families::change::Change;
use rule_families::family::{Family, MOST_RULES};
use rule_sets::rule_set::{RuleSet, lowest_bit, without_bit};

// Kept: memory holds plain rows, whose type cannot say that they are those of a board, 1,024 at most.
pub fn settle_rows<F: Family>(family: &F, rows: &mut [Row]) -> Settled
    requires sound { sound rows.old ≡ true }
    requires few { length rows.old ≤ 1024 }
    ensures { Settles (F.meaning family.now) rows.old rows.new result }
{
    let mut pending = RuleSet::below(family.size());
    match settle_asking(family, &mut pending, rows) {
        Some(settled) => settled,
        None => settle_on(family, &pending, rows),
    }
}

// A table of the rules by cell pays for itself after some narrowings: up to so many, those that are woken are asked for.
const ASKED: u32 = 4;

// Settles with so many narrowings at most: None where there may be more.
fn settle_asking<F: Family>(family: &F, pending: &mut RuleSet, rows: &mut [Row]) -> Option<Settled>
    requires sound { sound rows.old ≡ true }
    requires few { length rows.old ≤ 1024 }
    requires asleep { Asleep (F.meaning family.now) rows.old pending.old }
    ensures { SettlesOrBegins (F.meaning family.now) rows.old rows.new pending.new result }
{
    let words = family.size().div_ceil(64);
    'scan: for applied in 0..ASKED {
        let mut passed = 0;
        while let Some(rule) = pending.first_past(passed, words) {
            passed = rule / 64;
            match family.narrow(rule, rows) {
                Change::Quiet => pending.remove(rule),
                Change::Narrowed => {
                    wake_asking(family, rule, rows.len(), pending);
                    continue 'scan;
                }
                Change::Void => return Some(Settled::Void(applied + 1)),
            }
        }
        return Some(Settled::Settled(applied));
    }
    None
}

// Makes every rule pending that touches a cell which the rule touches, itself among them.
fn wake_asking<F: Family>(family: &F, rule: usize, cells: usize, pending: &mut RuleSet)
    ensures { Asked (F.meaning family.now) cells rule pending.old pending.new }
{
    for cell in 0..cells {
        if family.touches(rule, cells, cell) {
            wake_touching(family, cells, cell, pending);
        }
    }
}

fn wake_touching<F: Family>(family: &F, cells: usize, cell: usize, pending: &mut RuleSet)
    ensures { AskedAt (F.meaning family.now) cells cell pending.old pending.new }
{
    for rule in 0..family.size() {
        if family.touches(rule, cells, cell) {
            pending.insert(rule);
        }
    }
}

// Goes on with what is pending after those narrowings.
fn settle_on<F: Family>(family: &F, pending: &RuleSet, rows: &mut [Row]) -> Settled
    requires sound { sound rows.old ≡ true }
    requires few { length rows.old ≤ 1024 }
    requires asleep { Asleep (F.meaning family.now) rows.old pending.now }
    ensures { SettlesOn (F.meaning family.now) rows.old rows.new result }
{
    // The narrowings are fewer than the counts, which bounds the sum.
    let _most = width(rows);
    match settle_in_room(family, pending, rows) {
        Settled::Settled(applied) => Settled::Settled(applied + ASKED),
        Settled::Void(applied) => Settled::Void(applied + ASKED),
    }
}

fn settle_in_room<F: Family>(family: &F, pending: &RuleSet, rows: &mut [Row]) -> Settled
    requires sound { sound rows.old ≡ true }
    requires few { length rows.old ≤ 1024 }
    requires asleep { Asleep (F.meaning family.now) rows.old pending.now }
    ensures { Settles (F.meaning family.now) rows.old rows.new result }
{
    match Room::of(rows.len(), family.size()) {
        Room::Few => settle_in::<F, FEW_CELLS, FEW_RULES>(family, pending, rows),
        Room::Some => settle_in::<F, SOME_CELLS, SOME_RULES>(family, pending, rows),
        Room::Most => settle_in::<F, MOST_CELLS, MOST_RULES>(family, pending, rows),
    }
}

// The same in room for so many cells and rules, which is cleared at each settle.
#[inline(never)]
fn settle_in<F: Family, const CELLS: usize, const RULES: usize>(
    family: &F,
    pending: &RuleSet,
    rows: &mut [Row],
) -> Settled
    requires sound { sound rows.old ≡ true }
    requires few { length rows.old ≤ 1024 }
    requires asleep { Asleep (F.meaning family.now) rows.old pending.now }
    requires cells { length rows.old ≤ CELLS }
    requires rules { (F.meaning family.now).size ≤ RULES }
    requires words { RULES % 64 ≡ 0 }
    requires room { (CELLS ≤ 1024) × (RULES ≤ 4096) }
    ensures { Settles (F.meaning family.now) rows.old rows.new result }
{
    let mut watchers = FoldedWatchers::<CELLS, RULES>::none(family);
    watchers.list_all(family, rows.len());
    let mut room = [Row::default(); CELLS];
    settle_from(family, &watchers, pending, &mut room[..rows.len()], rows)
}

// The same for rows on which every rule is quiet that is not pending. The rows before an application stand in memory that is lent.
// A scan over the pending rules, from the lowest, that starts again whenever one narrows.
// Kept: the scan changes which rules are pending and is left from inside, which an iterator over them cannot be.
pub fn settle_from<F: Family, const CELLS: usize, const RULES: usize>(
    family: &F,
    watchers: &FoldedWatchers<CELLS, RULES>,
    pending: &RuleSet,
    before: &mut [Row],
    rows: &mut [Row],
) -> Settled
    requires sound { sound rows.old ≡ true }
    requires few { length rows.old ≤ 1024 }
    requires watching { FoldedWatching (F.meaning family.now) (length rows.old) watchers.now }
    requires asleep { Asleep (F.meaning family.now) rows.old pending.now }
    requires before { length before.old ≡ length rows.old }
    ensures { Settles (F.meaning family.now) rows.old rows.new result }
{
    let mut pending = *pending;
    let mut resting = None;
    before.copy_from_slice(rows);
    // Each application takes one at least from the width.
    'scan: for applied in 0..width(rows) {
        let mut passed = 0;
        while let Some(rule) = pending.first_past(passed, watchers.words) {
            passed = rule / 64;
            // Pending as any rule that narrowed, but known to be quiet until another narrows.
            if resting == Some(rule) {
                pending.remove(rule);
                continue;
            }
            match apply(family, watchers, rule, rows, before, &mut pending) {
                Change::Quiet => {}
                Change::Narrowed => {
                    resting = watchers.resting(rule);
                    continue 'scan;
                }
                Change::Void => return Settled::Void(applied + 1),
            }
        }
        return Settled::Settled(applied);
    }
    unreachable()
}

// The same for rows on which every rule is quiet that is not listed with the one cell that changed, if one did.
// Kept: not inlined, so that no level of a search has a set of rules on the stack.
#[inline(never)]
pub fn settle_stirred<F: Family, const CELLS: usize, const RULES: usize>(
    family: &F,
    watchers: &FoldedWatchers<CELLS, RULES>,
    stirred: Option<usize>,
    before: &mut [Row],
    rows: &mut [Row],
) -> Settled
    requires sound { sound rows.old ≡ true }
    requires few { length rows.old ≤ 1024 }
    requires watching { FoldedWatching (F.meaning family.now) (length rows.old) watchers.now }
    requires asleep { AsleepBut (F.meaning family.now) watchers.now stirred rows.old }
    requires before { length before.old ≡ length rows.old }
    ensures { Settles (F.meaning family.now) rows.old rows.new result }
{
    let mut pending = RuleSet::none();
    if let Some(cell) = stirred {
        watchers.wake(cell, &mut pending);
    }
    settle_from(family, watchers, &pending, before, rows)
}

// Narrows the rows by the rule: where it is quiet it waits no more, and where it narrows them it wakes what it may have stirred.
#[tactic(auto, using(crate::proofs::Sleeps::same_outside))]
fn apply<F: Family, const CELLS: usize, const RULES: usize>(
    family: &F,
    watchers: &FoldedWatchers<CELLS, RULES>,
    rule: usize,
    rows: &mut [Row],
    before: &mut [Row],
    pending: &mut RuleSet,
) -> Change
    requires sound { sound rows.old ≡ true }
    requires few { length rows.old ≤ 1024 }
    requires listed { (rule < 4096) × (rule < RULES) }
    requires watching { FoldedWatching (F.meaning family.now) (length rows.old) watchers.now }
    requires before { before.old ≡ rows.old }
    ensures narrows { Narrows ((F.meaning family.now).rule rule).narrowed rows.old rows.new result }
    ensures marks { Marked watchers.now rule rows.old rows.new pending.old pending.new result }
    ensures before { before.new ≡ rows.new }
{
    let change = family.narrow(rule, rows);
    match change {
        Change::Quiet => pending.remove(rule),
        Change::Narrowed => wake(watchers, rule, before, rows, pending),
        Change::Void => {}
    }
    change
}

// One more than the counts by which the highs exceed the lows.
// Kept: as `.map(..).sum::<u32>() + 1` nothing bounds the sum below the type's last number, so that the 1 may overflow it.
fn width(rows: &[Row]) -> u32
    requires { length rows.now ≤ 1024 }
    ensures is { result ≡ spread rows.now }
    ensures few { result ≤ 67107841 }
{
    let mut width = 1;
    for row in rows {
        width += u32::from(row.high.saturating_sub(row.low));
    }
    width
}

// Makes every rule pending that touches a cell whose row changed, and takes over the row. Only cells that the rule touches change.
// Kept: not inlined, so that the scan takes no registers from the walk.
#[inline(never)]
fn wake<const CELLS: usize, const RULES: usize>(
    watchers: &FoldedWatchers<CELLS, RULES>,
    rule: usize,
    before: &mut [Row],
    rows: &[Row],
    pending: &mut RuleSet,
)
    requires listed { rule < RULES }
    requires few { length rows.now ≤ 1024 }
    requires cells { length rows.now ≤ CELLS }
    requires words { (watchers.now.words ≤ 64) × (64 * watchers.now.words ≤ RULES) }
    requires before { length before.old ≡ length rows.now }
    requires reached { SameOutside (slice_index watchers.now.reach rule) before.old rows.now }
    ensures woken { Woken watchers.now before.old rows.now pending.old pending.new }
    ensures before { before.new ≡ rows.now }
{
    let mut first = 0;
    while first < rows.len() {
        wake_64(watchers, watchers.reach[rule], first, before, rows, pending);
        first += 64;
    }
}

// The same of the 64 cells from one on.
fn wake_64<const CELLS: usize, const RULES: usize>(
    watchers: &FoldedWatchers<CELLS, RULES>,
    reach: u64,
    first: usize,
    before: &mut [Row],
    rows: &[Row],
    pending: &mut RuleSet,
)
    requires first { (first % 64 ≡ 0) × (first < length rows.now) }
    requires few { length rows.now ≤ 1024 }
    requires cells { length rows.now ≤ CELLS }
    requires words { (watchers.now.words ≤ 64) × (64 * watchers.now.words ≤ RULES) }
    requires before { length before.old ≡ length rows.now }
    requires reached { SameOutside reach before.old rows.now }
    ensures woken { WokenAmong watchers.now (Within64 first) before.old rows.now pending.old pending.new }
    ensures before { Taken (Within64 first) before.old rows.now before.new }
{
    let mut left = reach;
    while let Some(bit) = lowest_bit(left) {
        let cell = first + bit;
        if cell < rows.len() {
            wake_at(watchers, cell, before, rows, pending);
        }
        left = without_bit(left, bit);
    }
}

// The same of one cell.
fn wake_at<const CELLS: usize, const RULES: usize>(
    watchers: &FoldedWatchers<CELLS, RULES>,
    cell: usize,
    before: &mut [Row],
    rows: &[Row],
    pending: &mut RuleSet,
)
    requires cell { cell < length rows.now }
    requires few { length rows.now ≤ 1024 }
    requires cells { length rows.now ≤ CELLS }
    requires words { (watchers.now.words ≤ 64) × (64 * watchers.now.words ≤ RULES) }
    requires before { length before.old ≡ length rows.now }
    ensures woken { WokenAmong watchers.now (λ c. c ≡ cell) before.old rows.now pending.old pending.new }
    ensures before { Taken (λ c. c ≡ cell) before.old rows.now before.new }
{
    if !stays(before[cell], rows[cell]) {
        before[cell] = rows[cell];
        watchers.wake(cell, pending);
    }
}

// Whether both bounds are the same.
fn stays(a: Row, b: Row) -> bool
    ensures { result ≡ (a.low == b.low && a.high == b.high) }
{
    word(a) == word(b)
}

// Both bounds as one word, which is compared faster than they are one by one.
fn word(row: Row) -> u32
    ensures { result ≡ row.high * 65536 + row.low }
{
    u32::from(row.high) << 16 | u32::from(row.low)
}
