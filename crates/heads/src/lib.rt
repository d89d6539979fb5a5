// The queue table of a plan: the next lines of its series, one a series at most, so that a draw looks at the first of them alone.
#![tactic(auto)]

mod coming;

pub use coming::{Coming, Drawn};
