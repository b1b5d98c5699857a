#![tactic(auto)]

pub mod body;
pub mod bytes;
pub mod cells;
pub mod fault;
pub mod kind;
pub mod plates;
pub mod refused;
pub mod totals;
pub mod triples;
