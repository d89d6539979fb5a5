// The answers to what is asked of the calendars, over any shelf.
ghost use Rattle.std.specs.Prelude.{◌≡◌, IfOk, IfSome, string_bytes};
ghost use Rattle.commands.specs.Commands.{asks};
ghost use Rattle.console.specs.Answers.{Replied, InLine, Answers, as_text};
ghost use Rattle.console.specs.declared.answers.AnswerError.TheVariants.{Complained, OutOfMemory};

use crate::lines::{day_line, year_line};
use calendar::{Sheet, Shelf, day_named};
use commands::{Complaint, DateQuery};
use std::alloc::{AllocError, Global};

// Why a question has no answer.
#[derive(Clone, Copy, PartialEq, Eq)]
pub enum AnswerError {
    // it cannot be used
    Complained(Complaint),
    OutOfMemory(AllocError),
}

impl From<Complaint> for AnswerError {
    ghost from_gives = { λ complaint e. e ≡ Complained complaint };

    fn from(complaint: Complaint) -> AnswerError {
        AnswerError::Complained(complaint)
    }
}

impl From<AllocError> for AnswerError {
    ghost from_gives = { λ memory e. e ≡ OutOfMemory memory };

    fn from(memory: AllocError) -> AnswerError {
        AnswerError::OutOfMemory(memory)
    }
}

// What a question is answered with.
#[derive(Drop)]
pub enum Reply {
    // this day, in every calendar
    Day(u32),
    // the year of the calendar at this place, with its sheet
    Year(usize, u32, Sheet),
}

// What is asked of the calendars, found on the shelf, or that there is no such date or year.
fn look_up<S: Shelf>(shelf: &S, query: DateQuery<'_>) -> Result<Option<Reply>, Complaint>
    ensures { Replied (S.Shelf.held shelf.now) (asks query.entry) result }
{
    match query {
        DateQuery::Date(day) => Ok(Some(Reply::Day(day))),
        DateQuery::Day(name, date) => {
            let place = shelf.find(name).ok_or(Complaint::NoCalendar)?;
            Ok(day_named(shelf, place, date).map(Reply::Day))
        }
        DateQuery::Year(name, year) => {
            let place = shelf.find(name).ok_or(Complaint::NoCalendar)?;
            let sheet = shelf.sheet(place, year);
            Ok((sheet.months != 0).then_some(Reply::Year(place, year, sheet)))
        }
    }
}

// A reply as a line.
fn reply_line<S: Shelf>(heap: Global, shelf: &S, reply: Option<Reply>) -> Result<String, AllocError>
    ensures { IfOk result (λ t. InLine (S.Shelf.held shelf.now) reply (string_bytes t)) }
{
    match reply {
        Some(Reply::Day(day)) => day_line(heap, shelf, day),
        Some(Reply::Year(place, year, sheet)) => {
            year_line(heap, shelf.name(place), year, &sheet)
        }
        None => format!(in heap; "none"),
    }
}

// The answer to what is asked of the calendars.
pub fn answer_query<S: Shelf>(
    heap: Global,
    shelf: &S,
    query: DateQuery<'_>,
) -> Result<String, AnswerError>
    ensures { IfSome (as_text result) (Answers (S.Shelf.held shelf.now) (asks query.entry)) }
{
    let found = look_up(shelf, query)?;
    Ok(reply_line(heap, shelf, found)?)
}
