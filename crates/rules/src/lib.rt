#![tactic(auto)]

pub mod arrays;
pub mod named;
pub mod numbered;
pub mod recorded;
