// The events of a file and their own lines: the questions on them, and what is kept of them.
#![tactic(auto)]

mod event;
mod kept;
mod lists;
mod questions;

pub use event::{EventLines, FileEvents, NamedLines};
pub use kept::{days_of, start_of, title_of};
pub use lists::{add_days, is_day_list, ranged_day, room_after};
pub use questions::{EventFault, check_event};
