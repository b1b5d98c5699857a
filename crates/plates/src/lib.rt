#![tactic(auto)]

pub mod family;
mod frame;
pub mod plate;
pub mod worked;
