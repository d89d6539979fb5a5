// The lines of the days that an event gives.
ghost use Rattle.std.specs.Prelude.{◌≡◌, IfOk, true, List, ℕ, ◌++◌, codes, string_bytes};
ghost use Rattle.std.specs.List.{AllPass};
ghost use Rattle.days.specs.Numbers.{in_range};
ghost use Rattle.calendar.specs.Printing.{padded};
ghost use Rattle.listing.specs.Lines.{Lines};
ghost use Rattle.series.specs.Record.{Ready};
ghost use Rattle.listing.specs.Texts.{verdict_in, DayText, DayLine, DayLines};

use days::digits::write_date;
use days::weekday::Weekday;
use events::RuleShelf;
use icalendar::Fault;
use series::{Series, days_between};
use std::alloc::{AllocError, Global};

// How the line of a day begins.
fn day_head(heap: Global, number: usize) -> Result<String, AllocError>
    ensures { IfOk result (λ text. string_bytes text ≡ padded 3 number ++ codes " ") }
{
    format!(in heap; "{number:03} ")
}

// A day: its eight digits and its weekday. Each day of the range has its eight digits, so the text is never empty.
fn day_text(heap: Global, day: u32) -> Result<Vec<u8>, AllocError>
    requires { in_range day ≡ true }
    ensures { IfOk result (λ text. DayText day text.items) }
{
    let Some(digits) = write_date(day) else {
        return Ok(Vec::new(heap));
    };
    let mut text = Vec::from_array(heap, digits)?;
    text.push(b' ')?;
    text.extend_from_slice(Weekday::of(day).letters().as_bytes())?;
    Ok(text)
}

// The line of a day of the event of this number.
fn day_line(heap: Global, number: usize, day: u32) -> Result<Vec<u8>, AllocError>
    requires { in_range day ≡ true }
    ensures { IfOk result (λ line. DayLine number day line.items) }
{
    let mut line = day_head(heap, number)?.into_bytes();
    line.extend_from_slice(day_text(heap, day)?.as_slice())?;
    line.push(b'\n')?;
    Ok(line)
}

// The lines of days of the event of this number.
fn day_lines(heap: Global, number: usize, days: &[u32]) -> Result<Vec<u8>, AllocError>
    requires { AllPass in_range days.now }
    ensures { IfOk result (λ text. Lines (DayLine number) days.now text.items) }
{
    let mut text = Vec::new(heap);
    for day in days {
        text.extend_from_slice(day_line(heap, number, *day)?.as_slice())?;
    }
    Ok(text)
}

// The lines of the days that an accepted event gives from `first` to `last`.
pub(crate) fn event_days<S: RuleShelf>(
    heap: Global,
    shelf: &S,
    number: usize,
    verdict: &Result<Series, Fault>,
    first: u32,
    last: u32,
) -> Result<Vec<u8>, AllocError>
    requires { IfOk verdict.now (Ready (S.Shelf.held shelf.now)) }
    ensures { IfOk result (λ text. DayLines (S.Shelf.held shelf.now) first last (number, verdict_in verdict.now) text.items) }
{
    match verdict {
        Ok(series) => {
            let days = days_between(heap, shelf, series, first, last)?;
            day_lines(heap, number, days.as_slice())
        }
        Err(_) => Ok(Vec::new(heap)),
    }
}
