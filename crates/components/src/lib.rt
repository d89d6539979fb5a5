// The components of a file, each END that of the innermost BEGIN, and its events with their own lines.
#![tactic(auto)]

mod delimiter;
mod events;
mod kind;
#[cfg(test)]
mod tests;
mod tree;

pub use events::{first_named, next_event, next_named};
pub use tree::count_events;
