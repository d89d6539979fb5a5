// The report of a plan that was closed: a line for each fault, and the report due, which is written or waived.
#![tactic(auto)]

mod due;
mod entries;

pub use due::ReportDue;
pub use entries::{FaultEntry, fault_text};
