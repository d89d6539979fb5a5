// Commands on a plan: what the words of a line ask for, or what is wrong with them; and the lines of a script.
#![tactic(auto)]

mod arguments;
mod command;
mod complaint;
mod reading;
mod script;

pub use command::{Draws, PlanCommand, Sizes};
pub use complaint::PlanComplaint;
pub use reading::read_plan_command;
pub use script::{ScriptLine, read_script_line};
