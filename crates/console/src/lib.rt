// The console: answers to what is asked of the calendars, as text.
#![tactic(auto)]

mod answers;
mod lines;

pub use answers::{AnswerError, answer_query};
