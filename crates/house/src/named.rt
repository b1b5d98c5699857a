// A mirror as a rule that names its two cells.
ghost use Rattle.std.specs.Prelude.{refl};
ghost use Rattle.std.proofs.Common.{lit≤};
ghost use Rattle.bounds.proofs.Lifted.{exact_on_laws};
ghost use Rattle.house.specs.Mirrors.{alike, scope_of, mirror_rule};

use crate::mirror::Mirror;
use bounds::row::Row;
use bounds::scope::Scope;
use rule_families::change::Change;
use rules::arrays::{array_of, written};
use rules::named::{Lawful, Named};

impl Scope for Mirror {
    ghost scope = { scope_of };

    fn arity(&self) -> usize {
        2
    }

    fn cell(&self, i: usize) -> usize {
        usize::from(if i == 0 { self.left } else { self.right })
    }
}

impl Named for Mirror {
    ghost scoped = { mirror_rule };

    ghost names_them = { λ m. refl };

    ghost few = { λ m. lit≤ tt };

    fn is_exact(&self) -> bool {
        true
    }

    fn narrow_own(&self, own: &mut [Row]) -> Change {
        written(own, self.narrowed(array_of(own)))
    }
}

impl Lawful for Mirror {
    ghost asks = { mirror_rule };

    ghost lawful = { λ m. exact_on_laws (scope_of m) (alike m.most) };

    ghost as_scoped = { λ m. refl };
}
