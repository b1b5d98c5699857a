#![tactic(auto)]

pub mod rule_set;
