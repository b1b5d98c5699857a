// Theorems over the definitions behind the engine's contracts: boards worked out by hand, and what a granted job's rules narrow to.
#![tactic(auto)]

ghost use Rattle.cases.specs.Granted.{GrantedAreExact};
ghost use Rattle.cases.specs.Worked.{Worked};

// Stands for the theorem that it ensures.
#[tactic(auto, using(crate::proofs::Single::one_alone, crate::proofs::Single::any_two, crate::proofs::Single::too_few, crate::proofs::Single::union, crate::proofs::Single::union_plus, crate::proofs::Single::three_by_twos, crate::proofs::Pair::plate_and_subset, crate::proofs::Trials::two_trials, crate::proofs::Job::first_job, crate::proofs::Sixteen::sixteen_trials))]
pub fn worked_boards()
    ensures { Worked }
{}

// Stands for the theorem that it ensures.
#[tactic(auto, using(crate::proofs::Granted::granted_are_exact))]
pub fn granted_are_exact()
    ensures { GrantedAreExact }
{}
