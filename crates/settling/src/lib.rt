#![tactic(auto)]

pub mod folded;
pub mod settle;
pub mod settled;
pub mod watchers;
