// A triple as a rule that names its cells.
ghost use Rattle.std.specs.Prelude.{refl};
ghost use Rattle.bounds.proofs.Lifted.{exact_on_laws};
ghost use Rattle.triples.specs.Triples.{relation, scope, rule_of, few_named};

use crate::narrowing;
use crate::triple::Triple;
use bounds::row::Row;
use bounds::scope::Scope;
use records::triples::TripleKind;
use rule_families::change::Change;
use rules::arrays::{array_of, written};
use rules::named::{Lawful, Named};

impl Scope for Triple {
    ghost scope = { λ t. (rule_of t).scope };

    #[tactic(auto, using(crate::proofs::Tied::scope_tied))]
    fn arity(&self) -> usize {
        self.kind.arity()
    }

    fn cell(&self, i: usize) -> usize {
        usize::from([self.a, self.b, self.c][i])
    }
}

impl Named for Triple {
    ghost scoped = { rule_of };

    ghost names_them = { λ t. refl };

    ghost few = { λ t. few_named t.kind t.a t.b t.c };

    fn is_exact(&self) -> bool {
        true
    }

    fn narrow_own(&self, own: &mut [Row]) -> Change {
        // Kept: a subset takes two rows and the others three, so that no one closure or pointer type stands for the four.
        match self.kind {
            TripleKind::Union => written(own, narrowing::union(array_of(own))),
            TripleKind::Intersection => written(own, narrowing::intersection(array_of(own))),
            TripleKind::UnionPlus => written(own, narrowing::union_plus(array_of(own))),
            TripleKind::Subset => written(own, narrowing::subset(array_of(own))),
        }
    }
}

impl Lawful for Triple {
    ghost asks = { rule_of };

    ghost lawful = { λ t. exact_on_laws (scope t.kind t.a t.b t.c) (relation t.kind) };

    ghost as_scoped = { λ t. refl };
}
