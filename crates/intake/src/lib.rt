// Loading: each event of a file becomes a series record or a fault entry in the free places of the tables.
#![tactic(auto)]

mod loading;
mod storing;

pub use loading::{Intake, Loaded, Used};
