#![tactic(auto)]

pub mod division;
pub mod limits;
