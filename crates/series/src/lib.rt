// Series: what is kept of an accepted event, and its days.
#![tactic(auto)]

mod days_of;
mod record;

pub use days_of::{days_between, next_day};
pub use record::{Recurrence, Series};
