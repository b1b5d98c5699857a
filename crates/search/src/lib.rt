#![tactic(auto)]

pub mod seek;
