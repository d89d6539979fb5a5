// Plans: files are loaded, days are sought, and the lines that are owed are drawn, one after another, from tables that their owner
// lends at each call.
#![tactic(auto)]

mod performing;
mod plans;
mod tables;

pub use performing::perform;
pub use plans::Plan;
pub use tables::Tables;
