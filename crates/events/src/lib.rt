// The days of events whose rules stand over the calendars of a shelf.
#![tactic(auto)]

mod shelf_rule;

pub use shelf_rule::{RuleShelf, ShelfRule};
