// The theorems that the families of rules and the board lean on: each function stands for the one that it ensures.
ghost use Rattle.bounds.specs.Theorems.{ExactIsLawful, ExactIsUnique, BesideIsLawful, LiftedIsLawful, LiftedIsExact};

#[tactic(auto, using(crate::proofs::ExactLaws::exact_laws))]
pub fn exact_is_lawful()
    ensures { ExactIsLawful }
{}

#[tactic(auto, using(crate::proofs::Exactly::exact_unique))]
pub fn exact_is_unique()
    ensures { ExactIsUnique }
{}

#[tactic(auto, using(crate::proofs::Beside::beside_lawful))]
pub fn beside_is_lawful()
    ensures { BesideIsLawful }
{}

#[tactic(auto, using(crate::proofs::Lifted::lifted_laws))]
pub fn lifted_is_lawful()
    ensures { LiftedIsLawful }
{}

#[tactic(auto, using(crate::proofs::Lifted::lifted_exact))]
pub fn lifted_is_exact()
    ensures { LiftedIsExact }
{}
