// The limits of the job file, each at its edge.
#![tactic(auto)]

#[cfg(test)]
mod tests;
