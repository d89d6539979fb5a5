// The eight digits of a date.
ghost use Rattle.std.specs.Prelude.{◌≡◌};
ghost use Rattle.days.specs.Digits.{date_read, values_read, last_digit, date_text, Written};

use crate::gregorian::{date_of_day, day_of_date};
use crate::in_range;

#[derive(Clone, Copy, Debug, PartialEq, Eq)]
pub enum DateFault {
    // not eight bytes
    Length,
    // the byte at this place, counted from 0, is no digit
    NoDigit(usize),
    // eight digits that name no day
    NoSuchDay,
}

// The values of eight digits.
fn eight_digits(bytes: &[u8]) -> Result<[u8; 8], DateFault>
    ensures { result ≡ values_read bytes.now }
{
    if bytes.len() != 8 {
        return Err(DateFault::Length);
    }
    let mut digits = [0; 8];
    for (i, b) in bytes.iter().enumerate() {
        if !b.is_ascii_digit() {
            return Err(DateFault::NoDigit(i));
        }
        digits[i] = *b - b'0';
    }
    Ok(digits)
}

// The day that eight digits name: four for the year, two for the month, two for the day of the month.
pub fn read_date(bytes: &[u8]) -> Result<u32, DateFault>
    ensures { result ≡ date_read bytes.now }
{
    let [y1, y2, y3, y4, m1, m2, d1, d2] = eight_digits(bytes)?;
    let year = 1000 * u32::from(y1) + 100 * u32::from(y2) + 10 * u32::from(y3) + u32::from(y4);
    let month = 10 * m1 + m2;
    let day = 10 * d1 + d2;
    day_of_date(year, month, day).ok_or(DateFault::NoSuchDay)
}

// The last digit of a number, as a byte. It fits: a `try_from` would need an answer for a case that cannot be.
fn last_digit(n: u32) -> u8
    ensures { result ≡ last_digit n }
{
    b'0' + (n % 10) as u8
}

// The eight digits of a date, in place: text that is formatted would want memory.
fn date_text(year: u32, month: u32, day: u32) -> [u8; 8]
    ensures { result ≡ date_text year month day }
{
    [
        year / 1000,
        year / 100,
        year / 10,
        year,
        month / 10,
        month,
        day / 10,
        day,
    ]
    .map(last_digit)
}

// The eight digits of a day of the range, the way back from `read_date`.
pub fn write_date(day: u32) -> Option<[u8; 8]>
    ensures { Written day result }
{
    if !in_range(day) {
        return None;
    }
    let (year, month, day) = date_of_day(day)?;
    Some(date_text(year, u32::from(month), u32::from(day)))
}
