// Runs a table of cases from standard input: a line gives a case's name and its file, or asks something, of the last case's
// file or of the calendars. Each question is printed with its answer. Or it asks how long the days of a file take.
#![tactic(auto)]

mod cases;
mod timing;

use case_lines::{OverShelf, first_word, four, over_shelf};
use cases::{Case, case_on};
use commands::{Command, FileQuery, Numbers, read_command};
use console::{AnswerError, answer_query};
use events::RuleShelf;
use icalendar::ReadError;
use listing::file_text;
use std::alloc::{AllocError, Global};
use std::io;
use std::io::{BufRead, BufReader, Write};
use std::time::Instant;
use timing::ask;

// What is asked of a case's file, which is answered over its shelf.
#[derive(Drop)]
struct Said<'a> {
    heap: Global,
    query: FileQuery,
    file: &'a [u8],
}

impl OverShelf for Said<'_> {
    type Done = Result<Vec<u8>, AllocError>;

    fn over<S: RuleShelf>(&self, shelf: &S) -> Result<Vec<u8>, AllocError> {
        file_text(self.heap, shelf, self.query, self.file)
    }
}

// What is said of a case's file, or none where no shelf has the name of its shelf.
fn said_of_case(
    heap: Global,
    case: &Case,
    query: FileQuery,
) -> Result<Option<Vec<u8>>, AllocError> {
    let said = Said {
        heap,
        query,
        file: case.file(),
    };
    over_shelf(case.shelf(), &said).transpose()
}

// Answers a question of the last case, or of the calendars.
fn respond(rt: &HostRuntime, case: &Option<Case>, line: &[u8]) -> io::Result<()> {
    let answer = match (read_command(line), case) {
        (Ok(Command::File(name, query)), Some(case)) if name == case.name() => {
            return match said_of_case(rt.alloc(), case, query)? {
                Some(text) => rt.stdout().write_all(text.as_slice()),
                None => println!(rt; "no shelf of that name"),
            };
        }
        (Ok(Command::File(_, _)), _) => return println!(rt; "not the last case"),
        (Ok(Command::Dates(query)), _) => answer_query(rt.alloc(), &four(), query),
        (Err(complaint), _) => Err(AnswerError::Complained(complaint)),
    };
    match answer {
        Ok(text) => println!(rt; "{text}"),
        Err(AnswerError::Complained(complaint)) => println!(rt; "{complaint}"),
        Err(AnswerError::OutOfMemory(e)) => Err(e.into()),
    }
}

// How often a question is to be asked and the question, on a line `time ROUNDS days NAME FIRST LAST`.
fn timed(line: &[u8]) -> Option<(u32, &[u8])> {
    let (rounds, question) = first_word(line.strip_prefix(b"time ")?)?;
    Some((Numbers::Digits.read(rounds, u32::MAX)?, question))
}

// Tells how many questions were asked for the days of the last case's events, and how long that took.
fn time(rt: &HostRuntime, case: &Option<Case>, rounds: u32, line: &[u8]) -> io::Result<()> {
    let (Ok(Command::File(_, FileQuery::Days { first, last })), Some(case)) = (
        read_command(line),
        case,
    ) else {
        return println!(rt; "not days of a case");
    };
    let begun = Instant::now(rt)?;
    let asked = ask(rt.alloc(), &four(), case.file(), first, last, rounds);
    let micros = begun.elapsed(rt)?.as_micros();
    match asked {
        Ok(asked) => println!(rt; "{asked} questions in {micros} microseconds"),
        Err(ReadError::Refused(question)) => println!(rt; "{question}"),
        Err(ReadError::OutOfMemory(e)) => Err(e.into()),
    }
}

// Answers a line that asks something, behind the line itself.
fn answer(rt: &HostRuntime, case: &Option<Case>, line: &[u8]) -> io::Result<()> {
    rt.stdout().write_all(line)?;
    println!(rt; "")?;
    match timed(line) {
        Some((rounds, question)) => time(rt, case, rounds, question),
        None => respond(rt, case, line),
    }
}

fn main(rt: HostRuntime) -> io::Result<()> {
    let mut case = None;
    for line in BufReader::new(rt.alloc(), rt.stdin())?.split(rt.alloc(), b'\n') {
        let line = line?;
        match case_on(rt.alloc(), line.as_slice())? {
            Some(next) => case = Some(next),
            None => answer(&rt, &case, line.as_slice())?,
        }
    }
    Ok(())
}
