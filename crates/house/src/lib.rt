// A house's own rules: a design and its mirror image are printed nearly as often.
#![tactic(auto)]

pub mod family;
pub mod mirror;
pub mod named;
#[cfg(test)]
mod tests;
