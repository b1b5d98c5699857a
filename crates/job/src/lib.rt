#![tactic(auto)]

mod body;
mod contents;
mod entries;
mod entry;
pub mod fault;
mod file;
pub mod job;
mod named;
mod record;
mod span;
mod tally;
