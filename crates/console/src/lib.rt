#![tactic(auto)]

pub mod families;
pub mod report;
pub mod room;
