// The date question, answered from the sheets of any lawful calendar.
ghost use Rattle.std.specs.Prelude.{◌≡◌, ◌≤◌};
ghost use Rattle.calendar.specs.Sheets.{Answered, Dated};
ghost use Rattle.calendar.specs.Search.{Seen};

use crate::{Sheet, Sheets};
use days::months::place_after;

// No lawful year has more days.
const LONGEST_YEAR: u32 = 385;

// Where a day lies, as seen from one year's sheet.
enum Sight {
    // in the year: the month's place and the day of the month
    Here(u8, u8),
    // at least so many years before it
    Earlier(u32),
    // at least so many years after it
    Later(u32),
}

// Where `day` lies, as seen from the sheet.
fn look(sheet: &Sheet, day: u32) -> Sight
    ensures { Seen sheet.now day result }
{
    if day < sheet.first {
        return Sight::Earlier((sheet.first - day - 1) / LONGEST_YEAR + 1);
    }
    let past = day - sheet.first;
    // Two cases with names of their own, of which `map_or` would put the rarer one first.
    match place_after(sheet.month_lengths(), past) {
        Some((place, date)) => Sight::Here(place, date),
        None => Sight::Later((past / LONGEST_YEAR).max(1)),
    }
}

// The date of a day, looked for from any year that the calendar answers. The guess goes on or back by as many years as
// the days between surely hold, so it never passes the year that is looked for.
pub fn date_from<C: Sheets>(calendar: &C, answered: u32, day: u32) -> Option<(u32, u8, u8)>
    requires { Answered (C.Sheets.meaning calendar.now) answered }
    ensures { Dated (C.Sheets.meaning calendar.now) day result }
{
    let mut year = answered;
    loop {
        let sheet = calendar.sheet(year);
        if sheet.months == 0 {
            return None;
        }
        year = match look(&sheet, day) {
            Sight::Here(place, date) => return Some((year, place, date)),
            Sight::Earlier(years) => year.checked_sub(years)?,
            Sight::Later(years) => year.checked_add(years)?,
        };
    }
}
