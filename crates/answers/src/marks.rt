// Days, marks and drawn lines as text.
ghost use Rattle.std.specs.Prelude.{◌≡◌, IfOk, ◌++◌, codes, string_bytes};
ghost use Rattle.calendar.specs.Printing.{padded};
ghost use Rattle.answers.specs.Marks.{Digits, weekday_text, MarkText, DrawnText};

use crate::titles::title_of;
use days::digits::write_date;
use days::weekday::Weekday;
use owed::Line;
use series::Series;
use std::alloc::{AllocError, Global};

// The eight digits of a day, or question marks where it is not of the range.
fn eight_digits(day: u32) -> [u8; 8]
    ensures { Digits day result }
{
    match write_date(day) {
        Some(digits) => digits,
        None => [b'?'; 8],
    }
}

// The number of a series after a blank.
fn number_text(heap: Global, number: u16) -> Result<String, AllocError>
    ensures { IfOk result (λ text. string_bytes text ≡ codes " " ++ padded 3 number) }
{
    format!(in heap; " {number:03}")
}

// The line of a mark.
pub fn mark_text(heap: Global, mark: Line) -> Result<Vec<u8>, AllocError>
    ensures { IfOk result (λ text. MarkText mark text.items) }
{
    let mut text = format!(in heap; "mark ")?.into_bytes();
    text.extend_from_slice(&eight_digits(mark.day))?;
    text.extend_from_slice(number_text(heap, mark.series)?.as_bytes())?;
    text.push(b'\n')?;
    Ok(text)
}

// What follows the digits of a day in a drawn line.
fn weekday_text(heap: Global, weekday: Weekday, number: u16) -> Result<String, AllocError>
    ensures { IfOk result (λ text. string_bytes text ≡ weekday_text weekday number) }
{
    let number = number_text(heap, number)?;
    format!(in heap; " {weekday}{number}")
}

// A drawn line, with the title of its series.
pub(crate) fn drawn_text(heap: Global, line: Line, table: &[Series]) -> Result<Vec<u8>, AllocError>
    ensures { IfOk result (λ text. DrawnText table.now line text.items) }
{
    let mut text = Vec::from_array(heap, eight_digits(line.day))?;
    let weekday = Weekday::of(line.day);
    text.extend_from_slice(weekday_text(heap, weekday, line.series)?.as_bytes())?;
    text.extend_from_slice(title_of(heap, table, usize::from(line.series))?.as_slice())?;
    text.push(b'\n')?;
    Ok(text)
}
