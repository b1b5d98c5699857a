// The rules by cell and the cells by rule, both by their numbers modulo 64.
ghost use Rattle.std.specs.Prelude.{◌≡◌, ℕ, ◌*◌, ◌%◌, ◌<◌, ◌≤◌, true, length, slice_index};
ghost use Rattle.bounds.specs.Scoped.{names};
ghost use Rattle.settling.specs.Folded.{FoldedWatching, FoldedWatchingBelow, FoldedListed, ListedAt, ListedWith, Stirred, FoldedRests};

use crate::watchers::{idempotent_rules, mark_alone};
use rule_families::family::Family;
use rule_sets::rule_set::{RuleSet, with_bit};

// A rule that touches more cells is listed by its marks.
const MOST_LISTED: usize = 66;

// A set of rules for each cell would take half a mebibyte of the stack. Of both more than 64 cells and more than 64 rules, this
// may list a rule with a cell that it does not touch, and then it is woken for nothing.
#[derive(Drop)]
pub struct FoldedWatchers<const CELLS: usize, const RULES: usize> {
    // For each cell the rules that touch it, by their numbers modulo 64.
    pub by_cell: [u64; CELLS],
    // For each word of 64 rules a word for each number below 64: those of them that touch a cell of that number modulo 64.
    pub by_word: [u64; RULES],
    // How many words of a set hold all rules.
    pub words: usize,
    // For each rule the cells that it touches, by their numbers modulo 64.
    pub reach: [u64; RULES],
    // The rules that are known to be idempotent.
    pub idempotent: RuleSet,
}

impl<const CELLS: usize, const RULES: usize> FoldedWatchers<CELLS, RULES> {
    // A table that lists nothing yet.
    // Kept: inlined, and filled where it stands, so that the stack has the table once.
    #[inline(always)]
    pub fn none<F: Family>(family: &F) -> FoldedWatchers<CELLS, RULES>
        requires rules { (F.meaning family.now).size ≤ RULES }
        requires words { RULES % 64 ≡ 0 }
        requires room { (CELLS ≤ 1024) × (RULES ≤ 4096) }
        ensures { (n : ℕ) → n ≤ CELLS → FoldedWatchingBelow (F.meaning family.now) n 0 result }
    {
        FoldedWatchers {
            by_cell: [0; CELLS],
            by_word: [0; RULES],
            words: family.size().div_ceil(64),
            reach: [0; RULES],
            idempotent: idempotent_rules(family),
        }
    }

    // Lists each rule, on a board of so many cells, in a table that lists nothing.
    #[tactic(auto, using(crate::proofs::Folds::one_more_folded))]
    pub fn list_all<F: Family>(&mut self, family: &F, cells: usize)
        requires cells { cells ≤ CELLS }
        requires rules { (F.meaning family.now).size ≤ RULES }
        requires words { RULES % 64 ≡ 0 }
        requires none { FoldedWatchingBelow (F.meaning family.now) cells 0 self.old }
        ensures { FoldedWatching (F.meaning family.now) cells self.new }
    {
        for rule in 0..family.size() {
            self.list(family, rule, cells);
        }
    }

    // The rule, if it is known to be quiet on rows that it has narrowed.
    pub fn resting(&self, rule: usize) -> Option<usize>
        requires { rule < 4096 }
        ensures { FoldedRests self.now rule result }
    {
        self.idempotent.contains(rule).then_some(rule)
    }

    // Makes the rules pending that are listed with the cell.
    // Kept: by the number of a word, which says where its 64 rules stand in the set and in the table.
    pub fn wake(&self, cell: usize, pending: &mut RuleSet)
        requires cell { cell < CELLS }
        requires words { (self.now.words ≤ 64) × (64 * self.now.words ≤ RULES) }
        ensures { Stirred self.now cell pending.old pending.new }
    {
        let rules = self.by_cell[cell];
        for word in 0..self.words {
            pending.unite_word(word, rules & self.by_word[64 * word + cell % 64]);
        }
    }

    // Lists the rule with each cell that it touches.
    #[tactic(auto, using(crate::proofs::Folds::listed_named))]
    fn list<F: Family>(&mut self, family: &F, rule: usize, cells: usize)
        requires rule { (rule < RULES) × (RULES % 64 ≡ 0) }
        requires cells { cells ≤ CELLS }
        ensures { FoldedListed (F.meaning family.now) cells rule self.old self.new }
    {
        let mut room = [0; MOST_LISTED];
        match family.list(rule, cells, &mut room) {
            Some(count) => self.list_named(rule, &room[..count]),
            None => self.list_marked(family, rule, cells),
        }
    }

    #[tactic(auto, using(crate::proofs::Folds::named_none, crate::proofs::Folds::named_more, crate::proofs::Folds::named_all))]
    fn list_named(&mut self, rule: usize, named: &[usize])
        requires rule { (rule < RULES) × (RULES % 64 ≡ 0) }
        requires cells { (i : ℕ) → i < length named.now → slice_index named.now i < CELLS }
        ensures { ListedWith (λ c. names named.now c ≡ true) rule self.old self.new }
    {
        let mut bits = 0;
        for cell in named {
            self.list_at(rule, *cell);
            bits = with_bit(bits, *cell % 64);
        }
        self.reach[rule] = bits;
    }

    // The same by a mark for each cell.
    #[tactic(auto, using(crate::proofs::Folds::touched_none, crate::proofs::Folds::touched_more, crate::proofs::Folds::touched_same, crate::proofs::Folds::touched_all))]
    fn list_marked<F: Family>(&mut self, family: &F, rule: usize, cells: usize)
        requires rule { (rule < RULES) × (RULES % 64 ≡ 0) }
        requires cells { cells ≤ CELLS }
        ensures { FoldedListed (F.meaning family.now) cells rule self.old self.new }
    {
        let mut room = [false; CELLS];
        let marks = &mut room[..cells];
        mark_alone(family, rule, cells, marks);
        let mut reach = 0;
        for (cell, touched) in marks.iter().enumerate() {
            if *touched {
                self.list_at(rule, cell);
                reach = with_bit(reach, cell % 64);
            }
        }
        self.reach[rule] = reach;
    }

    // Lists the rule and the cell with each other.
    fn list_at(&mut self, rule: usize, cell: usize)
        requires rule { (rule < RULES) × (RULES % 64 ≡ 0) }
        requires cell { cell < CELLS }
        ensures { ListedAt rule cell self.old self.new }
    {
        let near = 64 * (rule / 64) + cell % 64;
        self.by_cell[cell] = with_bit(self.by_cell[cell], rule % 64);
        self.by_word[near] = with_bit(self.by_word[near], rule % 64);
    }
}
