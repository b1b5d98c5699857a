#![tactic(auto)]

pub mod beside;
pub mod change;
pub mod family;
