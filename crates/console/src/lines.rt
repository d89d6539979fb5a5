// The line of a day, and the line of a year.
ghost use Rattle.std.specs.Prelude.{◌≡◌, IfOk, string_bytes};
ghost use Rattle.console.specs.Texts.{digits_text};
ghost use Rattle.console.specs.Lines.{calendar_text, DatesText, DayHead, DayLine, months_text, year_line};

use calendar::{MonthCode, NamedDate, Sheet, Shelf, date_named};
use days::gregorian::date_of_day;
use days::weekday::Weekday;
use std::alloc::{AllocError, Global};

// A calendar's name, and the date there, or none.
fn calendar_text(heap: Global, name: &str, date: Option<NamedDate>) -> Result<String, AllocError>
    ensures { IfOk result (λ t. string_bytes t ≡ calendar_text name.now date) }
{
    match date {
        Some(date) => format!(in heap; " {name} {date}"),
        None => format!(in heap; " {name} none"),
    }
}

// The names of the shelf's calendars, each with the date of the day there.
fn dates_text<S: Shelf>(heap: Global, shelf: &S, day: u32) -> Result<String, AllocError>
    ensures { IfOk result (λ t. DatesText (S.Shelf.held shelf.now) day (string_bytes t)) }
{
    let mut text = String::new(heap);
    // A shelf is a calendar beside a shorter shelf, so its places are numbers and no slice.
    for place in 0..shelf.count() {
        let date = date_named(shelf, place, day);
        text.push_str(calendar_text(heap, shelf.name(place), date)?.as_str())?;
    }
    Ok(text)
}

// The eight digits of a Gregorian date, or none.
fn digits_text(heap: Global, date: Option<(u32, u8, u8)>) -> Result<String, AllocError>
    ensures { IfOk result (λ t. string_bytes t ≡ digits_text date) }
{
    match date {
        Some((year, month, day)) => format!(in heap; "{year:04}{month:02}{day:02}"),
        None => format!(in heap; "none"),
    }
}

// How the line of a day begins: its eight digits, its number, its weekday.
fn day_head(heap: Global, day: u32) -> Result<String, AllocError>
    ensures { IfOk result (λ t. DayHead day (string_bytes t)) }
{
    let date = digits_text(heap, date_of_day(day))?;
    let weekday = Weekday::of(day);
    format!(in heap; "{date} {day} {weekday}")
}

// The line of a day: its eight digits, its number, its weekday, and its date in each calendar of the shelf.
pub fn day_line<S: Shelf>(heap: Global, shelf: &S, day: u32) -> Result<String, AllocError>
    ensures { IfOk result (λ t. DayLine (S.Shelf.held shelf.now) day (string_bytes t)) }
{
    let head = day_head(heap, day)?;
    let dates = dates_text(heap, shelf, day)?;
    format!(in heap; "{head}{dates}")
}

// The months of a year, each with its length.
fn months_text(heap: Global, codes: &[MonthCode], lengths: &[u8]) -> Result<String, AllocError>
    ensures { IfOk result (λ t. string_bytes t ≡ months_text codes.now lengths.now) }
{
    let mut text = String::new(heap);
    for (code, days) in codes.iter().zip(lengths) {
        write!(text, " {code}:{days}")?;
    }
    Ok(text)
}

// The line of a year: its first day, and each month's code and length.
pub fn year_line(heap: Global, name: &str, year: u32, sheet: &Sheet) -> Result<String, AllocError>
    ensures { IfOk result (λ t. string_bytes t ≡ year_line name.now year sheet.now) }
{
    let months = months_text(heap, sheet.month_codes(), sheet.month_lengths())?;
    let first = sheet.first;
    format!(in heap; "{name} {year} first {first} months{months}")
}
