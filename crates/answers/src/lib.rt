// The texts that a console writes for what a plan answers, and for the faults of a season's files.
#![tactic(auto)]

mod advice;
mod marks;
mod texts;
mod titles;

pub use advice::advice_text;
pub use marks::mark_text;
pub use texts::{answer_text, closed_text, refusal_text};
