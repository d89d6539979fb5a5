// How long the days of a file's events take to find.
ghost use Rattle.std.specs.Prelude.{IfOk};
ghost use Rattle.std.specs.List.{All};
ghost use Rattle.series.specs.Record.{Ready};

use events::RuleShelf;
use icalendar::{Fault, ReadError, read_file};
use series::{Series, days_between};
use std::alloc::{AllocError, Global};

// How many questions the days of one event take: one a day, and the last, which finds none.
fn asked_of<S: RuleShelf>(
    heap: Global,
    shelf: &S,
    verdict: &Result<Series, Fault>,
    first: u32,
    last: u32,
) -> Result<u64, AllocError>
    requires { IfOk verdict.now (Ready (S.Shelf.held shelf.now)) }
{
    match verdict {
        Ok(series) => {
            let days = days_between(heap, shelf, series, first, last)?;
            Ok((days.len() as u64).saturating_add(1))
        }
        Err(_) => Ok(0),
    }
}

// How many the days of all events take.
fn asked_of_all<S: RuleShelf>(
    heap: Global,
    shelf: &S,
    verdicts: &[Result<Series, Fault>],
    first: u32,
    last: u32,
) -> Result<u64, AllocError>
    requires { All (λ verdict. IfOk verdict (Ready (S.Shelf.held shelf.now))) verdicts.now }
{
    let mut asked: u64 = 0;
    for verdict in verdicts {
        asked = asked.saturating_add(asked_of(heap, shelf, verdict, first, last)?);
    }
    Ok(asked)
}

// How many they take when it is asked so many times over.
fn asked_in_rounds<S: RuleShelf>(
    heap: Global,
    shelf: &S,
    verdicts: &[Result<Series, Fault>],
    first: u32,
    last: u32,
    rounds: u32,
) -> Result<u64, AllocError>
    requires { All (λ verdict. IfOk verdict (Ready (S.Shelf.held shelf.now))) verdicts.now }
{
    let mut asked: u64 = 0;
    for _ in 0..rounds {
        asked = asked.saturating_add(asked_of_all(heap, shelf, verdicts, first, last)?);
    }
    Ok(asked)
}

// Asks so many times over for the days of a file's events from `first` to `last`, and tells how many questions that took.
pub(crate) fn ask<S: RuleShelf>(
    heap: Global,
    shelf: &S,
    file: &[u8],
    first: u32,
    last: u32,
    rounds: u32,
) -> Result<u64, ReadError> {
    let verdicts = read_file(heap, shelf, file, 1)?;
    Ok(asked_in_rounds(heap, shelf, verdicts.as_slice(), first, last, rounds)?)
}
