// Reads commands, a line each, and writes an answer to each: days and dates in every calendar of the shelf, what becomes of the
// events of a crew's file, and the lines and the report of a plan.
#![tactic(auto)]

mod files;
mod misfit;
mod opening;
mod output;
mod overview;
mod queries;
mod running;
mod script;
mod script_fault;
mod session;
mod settling;
mod shelf;
mod standing;
mod typed;

use output::complain;
use plan_commands::read_plan_command;
use queries::respond_to_query;
use session::Session;
use std::io;
use std::io::{BufRead, BufReader};
use typed::{command_in, typed_words};

// Answers a command; one that cannot be used gets its line's number and the reason.
fn respond(
    rt: &HostRuntime,
    session: Session,
    number: u64,
    command: &str,
) -> (Session, io::Result<()>) {
    let words = match typed_words(rt.alloc(), command) {
        Ok(words) => words,
        Err(e) => return (session, Err(e.into())),
    };
    match read_plan_command(words.as_slice()) {
        Some(Ok(command)) => session.obey(rt, number, command),
        Some(Err(complaint)) => (session, complain(rt, number, &complaint)),
        None => (session, respond_to_query(rt, number, words.as_slice())),
    }
}

// Answers a line.
fn respond_to_line(
    rt: &HostRuntime,
    session: Session,
    number: u64,
    line: io::Result<String>,
) -> (Session, io::Result<()>) {
    match line {
        Ok(text) => match command_in(text.as_str()) {
            Some(command) => respond(rt, session, number, command),
            None => (session, Ok(())),
        },
        Err(e) if e.kind() == io::ErrorKind::InvalidData => {
            (session, complain(rt, number, &"not UTF-8 text"))
        }
        Err(e) => (session, Err(e)),
    }
}

// Answers the lines of a reader, until there are no more or an answer cannot be written.
fn respond_to_lines(rt: &HostRuntime) -> (Session, io::Result<()>) {
    let mut session = Session::Idle;
    let reader = match BufReader::new(rt.alloc(), rt.stdin()) {
        Ok(reader) => reader,
        Err(e) => return (session, Err(e)),
    };
    // `enumerate` counts from zero and could run over on input without end, so it would be no plainer.
    let mut number: u64 = 0;
    for line in reader.lines(rt.alloc()) {
        number = number.saturating_add(1);
        let (next, outcome) = respond_to_line(rt, session, number, line);
        session = next;
        if outcome.is_err() {
            return (session, outcome);
        }
    }
    (session, Ok(()))
}

fn main(rt: HostRuntime) -> io::Result<()> {
    let (session, outcome) = respond_to_lines(&rt);
    outcome.and(session.settle(&rt))
}
