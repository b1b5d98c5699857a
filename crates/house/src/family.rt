// The house's mirrors as a family of rules.
ghost use Rattle.std.specs.Prelude.{◌≡◌};
ghost use Rattle.house.specs.Mirrors.{mirrors};

use crate::mirror::Mirror;
use rule_families::family::Family;
use rules::numbered::Rules;

pub type Mirrors<'m> = Rules<&'m [Mirror]>;

// One rule to a mirror, in the order of the list.
pub fn mirrors(list: &[Mirror]) -> Mirrors<'_>
    ensures { ⟦<Mirrors<'static> as Family>⟧.meaning result ≡ mirrors list.now }
{
    Rules(list)
}
