#![tactic(auto)]

pub mod board;
mod control;
pub mod refusal;
pub mod unfit;
