// What a command asks for.
use calendar::NamedDate;

// A command whose words are well formed. The calendar's name is still to be found on a shelf, and the file to be opened.
#[derive(Drop)]
pub enum Command<'a> {
    Dates(DateQuery<'a>),
    // of the file of this name
    File(&'a [u8], FileQuery),
}

// What is asked of the calendars.
#[derive(Drop)]
pub enum DateQuery<'a> {
    // the day of a date of eight digits, in every calendar
    Date(u32),
    // a date of one calendar, in every calendar
    Day(&'a [u8], NamedDate),
    // a year of one calendar
    Year(&'a [u8], u32),
}

// What is asked of a file.
#[derive(Clone, Copy, Debug, PartialEq, Eq)]
pub enum FileQuery {
    // what becomes of each of its events
    Check,
    // the days that its events give from one day to another, both included
    Days { first: u32, last: u32 },
}
