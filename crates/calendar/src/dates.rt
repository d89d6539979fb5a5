// Dates by the codes of their months, and the days that they name.
ghost use Rattle.std.specs.Prelude.{◌≡◌, ◌<◌, true, length, is_some};
ghost use Rattle.calendar.specs.Laws.{Covered};
ghost use Rattle.calendar.specs.Dates.{DateNamed, DayNamed};
ghost use Rattle.calendar.specs.Shelves.{almanac_at};

use crate::{MonthCode, Shelf};

// A date as people write it: 8 Adar I 5774 is year 5774, code 5L, day 8.
#[derive(Clone, Copy, Debug)]
pub struct NamedDate {
    pub year: u32,
    pub code: MonthCode,
    pub day: u8,
}

// The date of a day in the calendar at a place of the shelf. A covered day has one in every calendar.
pub fn date_named<S: Shelf>(shelf: &S, place: usize, day: u32) -> Option<NamedDate>
    ensures named { DateNamed (almanac_at (S.Shelf.held shelf.now) place) day result }
    ensures covered { place < length (S.Shelf.held shelf.now) → Covered day → is_some result ≡ true }
{
    let (year, month, day) = shelf.date(place, day)?;
    let code = shelf.sheet(place, year).month_codes()[usize::from(month) - 1];
    Some(NamedDate { year, code, day })
}

// The day of a date of the calendar at a place of the shelf, or none if it has no such date.
pub fn day_named<S: Shelf>(shelf: &S, place: usize, date: NamedDate) -> Option<u32>
    ensures { DayNamed (almanac_at (S.Shelf.held shelf.now) place) date result }
{
    let sheet = shelf.sheet(place, date.year);
    let month = sheet.place_of(date.code)?;
    Some(sheet.first + sheet.days_into(month, date.day)?)
}
