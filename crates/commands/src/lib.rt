// Commands: the words of a line, what they ask for, and what is wrong with a line that cannot be used.
#![tactic(auto)]

mod codes;
mod command;
mod complaint;
mod numbers;
mod reading;

pub use command::{Command, DateQuery, FileQuery};
pub use complaint::Complaint;
pub use numbers::Numbers;
pub use reading::read_command;
