// Families of rules that name their cells, by number; those past the 4,096th are left out.
ghost use Rattle.std.specs.Prelude.{◌≡◌, ℕ, ◌<◌, length, slice_get};
ghost use Rattle.bounds.proofs.Lifted.{numbered_lawful};
ghost use Rattle.bounds.specs.Listed.{numbered};
ghost use Rattle.bounds.specs.Scoped.{Scoped, ScopedLaws, on_board};
ghost use Rattle.rules.specs.Numbers.{or_none, none_laws};

use crate::named::{self, Lawful, Named};
use bounds::row::Row;
use rule_families::change::Change;
use rule_families::family::{Family, MOST_RULES};

// Rules numbered from 0.
pub trait Numbered {
    type Rule: Named + Drop;

    ghost count: { Self → ℕ };

    // What the rule of each number asks.
    ghost at: { Self → ℕ → Scoped };

    ghost lawful: { (s : Self) → (number : ℕ) → ScopedLaws (at s number) };

    fn count(&self) -> usize
        ensures { result ≡ count self.now };

    // None where it asks nothing.
    fn rule(&self, number: usize) -> Option<Self::Rule>
        requires { number < count self.now }
        ensures { or_none Self.Rule.scoped result ≡ at self.now number };
}

// A list of rules.
impl<R: Lawful + Copy> Numbered for &[R] {
    type Rule = R;

    ghost count = { λ s. length s.now };

    ghost at = { λ s number. or_none R.asks (slice_get s.now number) };

    ghost lawful = { λ s number. none_laws R.asks R.lawful (slice_get s.now number) };

    fn count(&self) -> usize {
        self.len()
    }

    fn rule(&self, number: usize) -> Option<R> {
        self.get(number).copied()
    }
}

// The rules as a family.
#[derive(Clone, Copy)]
pub struct Rules<S>(pub S);

impl<S: Numbered> Rules<S> {
    // The rule with this number; None past the size, or where there is none.
    // Kept: inlined, since a rule that comes back in memory is read there again at each of its cells.
    #[inline(always)]
    fn find(&self, number: usize) -> Option<S::Rule>
        ensures { on_board (or_none S.Rule.scoped result) ≡ (numbered (S.count self.now.0) (S.at self.now.0)).rule number }
    {
        if number < self.size() {
            self.0.rule(number)
        } else {
            None
        }
    }
}

impl<S: Numbered> Family for Rules<S> {
    ghost meaning = { λ f. numbered (S.count f.0) (S.at f.0) };

    ghost lawful = { λ f. numbered_lawful (S.count f.0) (S.at f.0) (S.lawful f.0) };

    fn size(&self) -> usize {
        MOST_RULES.min(self.0.count())
    }

    fn touches(&self, rule: usize, cells: usize, cell: usize) -> bool {
        match self.find(rule) {
            Some(found) => named::touches(&found, cells, cell),
            None => false,
        }
    }

    fn mark(&self, rule: usize, marks: &mut [bool]) {
        if let Some(found) = self.find(rule) {
            named::mark(&found, marks);
        }
    }

    fn list(&self, rule: usize, cells: usize, room: &mut [usize]) -> Option<usize> {
        match self.find(rule) {
            Some(found) => named::list(&found, cells, room),
            None => Some(0),
        }
    }

    fn is_idempotent(&self, rule: usize) -> bool {
        self.find(rule)
            .is_some_and(|found| named::is_idempotent(&found))
    }

    fn narrow(&self, rule: usize, rows: &mut [Row]) -> Change {
        match self.find(rule) {
            Some(found) => named::narrow(&found, rows),
            None => Change::Quiet,
        }
    }
}
