// The rules of a family by the cells that they touch.
ghost use Rattle.std.specs.Prelude.{◌≡◌, ◌<◌, ◌≤◌, length};
ghost use Rattle.settling.specs.Watching.{Watching, Listed, Touches, AllIdempotent, Rests, Serves};

use rule_families::family::{Family, MOST_RULES};
use rule_sets::rule_set::{RuleSet, with_bit};

// A board has no more cells.
pub const MOST_CELLS: usize = 1024;

// Most boards have so few cells and rules, and every job's so few rules, and do not pay for the room that more rules need.
pub const FEW_CELLS: usize = 64;

pub const FEW_RULES: usize = 64;

pub const SOME_CELLS: usize = MOST_CELLS;

pub const SOME_RULES: usize = 1024;

// The room that a board's folded table of rules takes.
#[derive(Clone, Copy, PartialEq, Eq, Debug)]
pub enum Room {
    Few,
    Some,
    Most,
}

impl Room {
    // The least that serves so many cells and rules.
    pub fn of(cells: usize, rules: usize) -> Room
        ensures { Serves cells rules result }
    {
        if cells <= FEW_CELLS && rules <= FEW_RULES {
            Room::Few
        } else if cells <= SOME_CELLS && rules <= SOME_RULES {
            Room::Some
        } else {
            Room::Most
        }
    }
}

// With each cell just the rules that touch it. Settles and searches take a folded table, which is smaller.
#[derive(Drop)]
pub struct Watchers {
    // For each cell the rules that touch it, and how many words of a set hold all rules.
    pub by_cell: [RuleSet; MOST_CELLS],
    pub words: usize,
    // For each rule the cells that it touches, by their numbers modulo 64.
    pub reach: [u64; MOST_RULES],
    // The rules that are known to be idempotent.
    pub idempotent: RuleSet,
}

impl Watchers {
    #[tactic(auto, using(crate::proofs::Lists::one_more_rule))]
    pub fn of<F: Family>(family: &F, cells: usize) -> Watchers
        requires { cells ≤ 1024 }
        ensures { Watching (F.meaning family.now) cells result }
    {
        let mut watchers = Watchers {
            by_cell: [RuleSet::none(); MOST_CELLS],
            words: family.size().div_ceil(64),
            reach: [0; MOST_RULES],
            idempotent: idempotent_rules(family),
        };
        for rule in 0..family.size() {
            watchers.list(family, rule, cells);
        }
        watchers
    }

    // The rule, if it is known to be quiet on rows that it has narrowed.
    pub fn resting(&self, rule: usize) -> Option<usize>
        requires { rule < 4096 }
        ensures { Rests self.now rule result }
    {
        self.idempotent.contains(rule).then_some(rule)
    }

    // Lists the rule with each cell that it touches.
    fn list<F: Family>(&mut self, family: &F, rule: usize, cells: usize)
        requires rule { rule < 4096 }
        requires cells { cells ≤ 1024 }
        ensures { Listed (F.meaning family.now) cells rule self.old self.new }
    {
        let mut room = [false; MOST_CELLS];
        let marks = &mut room[..cells];
        mark_alone(family, rule, cells, marks);
        let mut reach = 0;
        for (cell, touched) in marks.iter().enumerate() {
            if *touched {
                self.by_cell[cell].insert(rule);
                reach = with_bit(reach, cell % 64);
            }
        }
        self.reach[rule] = reach;
    }
}

// The rules that are known to be idempotent.
#[tactic(auto, using(crate::proofs::Lists::none_known, crate::proofs::Lists::known_more))]
pub(crate) fn idempotent_rules<F: Family>(family: &F) -> RuleSet
    ensures { AllIdempotent (F.meaning family.now) result }
{
    let mut known = RuleSet::none();
    for rule in 0..family.size() {
        if family.is_idempotent(rule) {
            known.insert(rule);
        }
    }
    known
}

// Marks the cells that the rule touches, and no others.
pub(crate) fn mark_alone<F: Family>(family: &F, rule: usize, cells: usize, marks: &mut [bool])
    requires { length marks.old ≡ cells }
    ensures { Touches (F.meaning family.now) cells rule marks.new }
{
    marks.fill(false);
    family.mark(rule, marks);
}
