// What is said of a file: what becomes of each of its events, or the days that they give, or why it is refused.
#![tactic(auto)]

mod event_days;
mod files;
mod verdicts;

pub use files::file_text;
