#![tactic(auto)]

pub mod family;
#[cfg(test)]
mod tests;
pub mod total;
pub mod worked;
