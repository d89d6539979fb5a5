// The lines of a file, in place over its bytes: folds, places, and the parts of a line.
#![tactic(auto)]

mod cursor;
mod ended;
mod machine;
mod property;

pub use cursor::{Cursor, Lines};
pub use ended::well_ended;
pub use machine::{State, all_well_formed, well_formed};
pub use property::{in_name, is_date, named, value_of};
