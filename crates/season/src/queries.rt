// Answers to what is asked of the calendars and of files.
use crate::files::read_front;
use crate::output::{complain, say};
use crate::shelf::SHELF;
use crate::typed::read_command;
use commands::{Command, Complaint, DateQuery, FileQuery};
use console::{AnswerError, answer_query};
use listing::file_text;
use std::io;

// What is said of a line whose first word no command has.
const COMMANDS: &str =
    "the commands are date, day, year, check, days, open, load, seek, draw, mark, close, report, waive, run and list";

// Answers what is asked of the calendars.
fn respond_of_dates(rt: &HostRuntime, number: u64, query: DateQuery) -> io::Result<()> {
    match answer_query(rt.alloc(), &SHELF, query) {
        Ok(line) => println!(rt; "{line}"),
        Err(AnswerError::Complained(complaint)) => complain(rt, number, &complaint),
        Err(AnswerError::OutOfMemory(e)) => Err(e.into()),
    }
}

// Answers what is asked of a file.
fn respond_of_file(rt: &HostRuntime, number: u64, name: &[u8], query: FileQuery) -> io::Result<()> {
    match read_front(rt, name) {
        Ok(file) => {
            let text = file_text(rt.alloc(), &SHELF, query, file.as_slice())?;
            say(rt, text.as_slice())
        }
        Err(unread) => complain(rt, number, &unread),
    }
}

// Answers the words of a line that are no command on a plan.
pub(crate) fn respond_to_query(rt: &HostRuntime, number: u64, words: &[&[u8]]) -> io::Result<()> {
    match read_command(words) {
        Ok(Command::File(name, query)) => respond_of_file(rt, number, name, query),
        Ok(Command::Dates(query)) => respond_of_dates(rt, number, query),
        Err(Complaint::Unknown) => complain(rt, number, &COMMANDS),
        Err(complaint) => complain(rt, number, &complaint),
    }
}
