// Two families as one: the first's rules, then the second's, any past 4,096 left out.
ghost use Rattle.std.specs.Prelude.{◌≡◌};
ghost use Rattle.bounds.specs.Beside.{beside};
ghost use Rattle.bounds.proofs.Beside.{beside_lawful};
ghost use Rattle.rule_families.specs.Placed.{placed};

use crate::change::Change;
use crate::family::{Family, MOST_RULES};
use bounds::row::Row;

#[derive(Clone, Copy, PartialEq, Eq, Debug)]
pub struct Beside<A, B> {
    pub first: A,
    pub second: B,
}

// The family that a rule is of, and its number there.
// Kept: the two families differ in type, so that neither a closure nor a dyn value says more plainly which is asked.
enum Place {
    First(usize),
    Second(usize),
}

impl<A: Family, B: Family> Beside<A, B> {
    fn place(&self, rule: usize) -> Option<Place>
        ensures { (beside (A.meaning self.now.first) (B.meaning self.now.second)).rule rule ≡ placed (A.meaning self.now.first) (B.meaning self.now.second) result }
    {
        let first = self.first.size();
        if rule < first {
            Some(Place::First(rule))
        } else if rule < MOST_RULES {
            Some(Place::Second(rule - first))
        } else {
            None
        }
    }
}

impl<A: Family, B: Family> Family for Beside<A, B> {
    ghost meaning = { λ f. beside (A.Family.meaning f.first) (B.Family.meaning f.second) };

    ghost lawful = { λ f. beside_lawful (A.Family.meaning f.first) (B.Family.meaning f.second) (A.Family.lawful f.first) (B.Family.lawful f.second) };

    fn size(&self) -> usize {
        MOST_RULES.min(self.first.size() + self.second.size())
    }

    fn touches(&self, rule: usize, cells: usize, cell: usize) -> bool {
        match self.place(rule) {
            Some(Place::First(own)) => self.first.touches(own, cells, cell),
            Some(Place::Second(own)) => self.second.touches(own, cells, cell),
            None => false,
        }
    }

    fn mark(&self, rule: usize, marks: &mut [bool]) {
        match self.place(rule) {
            Some(Place::First(own)) => self.first.mark(own, marks),
            Some(Place::Second(own)) => self.second.mark(own, marks),
            None => {}
        }
    }

    fn list(&self, rule: usize, cells: usize, room: &mut [usize]) -> Option<usize> {
        match self.place(rule) {
            Some(Place::First(own)) => self.first.list(own, cells, room),
            Some(Place::Second(own)) => self.second.list(own, cells, room),
            None => Some(0),
        }
    }

    fn is_idempotent(&self, rule: usize) -> bool {
        match self.place(rule) {
            Some(Place::First(own)) => self.first.is_idempotent(own),
            Some(Place::Second(own)) => self.second.is_idempotent(own),
            None => false,
        }
    }

    fn narrow(&self, rule: usize, rows: &mut [Row]) -> Change {
        match self.place(rule) {
            Some(Place::First(own)) => self.first.narrow(own, rows),
            Some(Place::Second(own)) => self.second.narrow(own, rows),
            None => Change::Quiet,
        }
    }
}
