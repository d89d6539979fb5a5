// Rules, checked, and what they mean over any lawful calendar.
#![tactic(auto)]

mod checked;
mod making;
mod parts;
mod period;
mod present;
mod theorem;

pub use checked::Rule;
pub use making::{some_numbered, takes_month_days, takes_numbers};
pub use parts::{ByDay, Frequency, MonthDays, Months, Parts, Position, Skip, Weekdays};
pub use period::{Period, Stretch};
pub use theorem::{parts_say, rules_say};
