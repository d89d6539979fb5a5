// The text of an RRULE: a checked rule, or the first question that it fails.
#![tactic(auto)]

mod named;
mod part_name;
mod rule;
mod values;

pub use rule::{RuleText, read_rule};
