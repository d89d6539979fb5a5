// The lines of a plan, their order, and the list of those that are owed.
#![tactic(auto)]

mod line;
mod theorem;

pub use line::Line;
pub use theorem::owed_lists;
