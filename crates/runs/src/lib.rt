// Calls on a plan and their answers, the questions that they are asked, and the law over every run of them.
#![tactic(auto)]

mod calls;
mod theorem;

pub use calls::{Answer, Call, Made, Places, Refusal};
pub use theorem::right_runs_keep_the_law;
