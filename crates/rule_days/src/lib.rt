// The days of a rule over any lawful calendar: a search from period to period.
#![tactic(auto)]

mod search;
mod source;
mod steps;
mod weeks;

pub use source::RuleDays;
