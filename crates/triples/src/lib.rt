#![tactic(auto)]

pub mod family;
pub mod named;
pub mod narrowing;
#[cfg(test)]
mod tests;
pub mod triple;
pub mod worked;
