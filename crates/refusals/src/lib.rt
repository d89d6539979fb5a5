// The questions that a file, an event, its rule and its calendar, and a call of the plan are asked, each with its number and
// its words.
#![tactic(auto)]

mod asked;
mod numbers;
mod words;

pub use asked::{
    CalendarQuestion, EventQuestion, Failed, FileQuestion, PlanQuestion, RuleQuestion,
};
