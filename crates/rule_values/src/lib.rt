// The values of an RRULE's parts: what a text of each form means, read in place from any bytes.
#![tactic(auto)]

mod form;
mod items;
mod lists;
mod numbers;
mod values;
mod words;

pub use form::Form;
pub use values::{LastDay, Number, ScaleName};
pub use words::Word;
