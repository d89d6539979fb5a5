// Three more calendars, made up for test cases: one of the name of another, one with short months, one with many leap
// months.
#![tactic(auto)]

pub mod many_leaps;
pub mod same_name;
pub mod short_months;
