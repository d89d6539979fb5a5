// The Gregorian calendar, carried back to year 1 and on to year 9999.
ghost use Rattle.std.specs.Prelude.{◌≡◌, ◌≤◌, ℕ, true, is_some, IfSome};
ghost use Rattle.days.specs.Gregorian.{leap_year, month_lengths, new_year, day_of_date, InYear, DateOf};

use crate::months::{days_past, place_after};

const LAST_YEAR: u32 = 9999;

// Whether a year has a 29 February.
pub fn is_leap(year: u32) -> bool
    ensures { result ≡ leap_year year }
{
    (year % 4 == 0 && year % 100 != 0) || year % 400 == 0
}

// The lengths of a year's months, January first.
pub fn month_lengths(year: u32) -> [u8; 12]
    ensures { result ≡ month_lengths year }
{
    let february = if is_leap(year) { 29 } else { 28 };
    [31, february, 31, 30, 31, 30, 31, 31, 30, 31, 30, 31]
}

// The day on which a year begins. The bound stands here, since each calendar counts other years: a type would be no plainer.
pub fn new_year(year: u32) -> u32
    requires { (1 ≤ year) × (year ≤ 10000) }
    ensures { result ≡ new_year year }
{
    let past = year - 1;
    1 + 365 * past + past / 4 - past / 100 + past / 400
}

// The day of a date, or none where the calendar has no such date.
pub fn day_of_date(year: u32, month: u8, day: u8) -> Option<u32>
    ensures { result ≡ day_of_date year month day }
{
    if !(1..=LAST_YEAR).contains(&year) {
        return None;
    }
    let past = days_past(&month_lengths(year), month, day)?;
    Some(new_year(year) + past)
}

// The year that a day lies in, or none where the calendar has no such year.
fn year_of(day: u32) -> Option<u32>
    requires { 1 ≤ day }
    ensures some { IfSome result (InYear day) }
    ensures only { (y : ℕ) → InYear day y → is_some result ≡ true }
{
    // No year has more than 366 days, so this is never too late, and at most some twenty years too early.
    let early = day / 366 + 1;
    (early..LAST_YEAR + 1).find(|&year| day < new_year(year + 1))
}

// The date of a day, the way back from `day_of_date`, or none where no date has that day.
pub fn date_of_day(day: u32) -> Option<(u32, u8, u8)>
    ensures { DateOf day result }
{
    if day == 0 {
        return None;
    }
    let year = year_of(day)?;
    let (month, day) = place_after(&month_lengths(year), day - new_year(year))?;
    Some((year, month, day))
}
