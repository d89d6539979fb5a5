// Files of events: the questions on a file, and what becomes of each of its events over a shelf of calendars.
#![tactic(auto)]

mod fault;
mod file;
mod read;
mod rule;
#[cfg(test)]
mod tests;
mod verdict;

pub use fault::Fault;
pub use file::check_file;
pub use read::{ReadError, read_file};
pub use verdict::read_event;
