#![tactic(auto)]

pub mod answer;
pub mod call;
pub mod script;
pub mod shown;
pub mod step;
