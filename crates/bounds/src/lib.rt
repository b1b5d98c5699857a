#![tactic(auto)]

pub mod cell;
pub mod row;
pub mod scope;
pub mod theory;
