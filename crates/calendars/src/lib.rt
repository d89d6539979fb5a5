// The calendars: Gregorian, Coptic, Islamic civil and Hebrew.
#![tactic(auto)]

// Each calendar has a range of years of its own, answers a year by one test of it, and looks for a date from a year in
// its middle: a function for all of them would take the range and the reckoning as a closure, and need more clauses
// than the test has words. The bounds of each reckoning stay too, since each counts years of its own.
pub mod coptic;
pub mod gregorian;
pub mod hebrew;
pub mod islamic;
