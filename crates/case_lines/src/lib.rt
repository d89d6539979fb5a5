// What cases with expected answers have in common: how a file stands on a line, and the shelves.
#![tactic(auto)]

mod escapes;
mod shelves;
mod words;

pub use escapes::plain_bytes;
pub use shelves::{FourAnd, OverShelf, four, over_shelf};
pub use words::first_word;
