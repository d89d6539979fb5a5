// What a rule gives in months and in years, put into a queue of days.
#![tactic(auto)]

mod codes;
mod filling;
mod limits;
mod month;
mod values;
mod years;

pub use filling::{StartedRule, add_if};
pub use limits::{code_passes, value_passes, weekday_passes};
pub use month::{MonthOf, YearOf};
pub use years::YearlyRule;
