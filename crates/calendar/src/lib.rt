// What a calendar is: year sheets, the two questions, the laws, and shelves of calendars.
#![tactic(auto)]

ghost use Rattle.std.specs.Prelude.{◌≡◌};
ghost use Rattle.calendar.specs.Sheets.{Almanac, Dated};
ghost use Rattle.calendar.specs.Laws.{Lawful};

mod consequences;
mod dates;
mod month_codes;
mod printing;
mod search;
mod sheet;
mod shelf;

pub use consequences::{laws_give, laws_shut_out};
pub use dates::{NamedDate, date_named, day_named};
pub use month_codes::year_codes;
pub use search::date_from;
pub use sheet::{MonthCode, Sheet};
pub use shelf::{Empty, On, PLACES, Shelf};

// What a calendar states, and the sheet question. Its meaning is an almanac that obeys the laws.
pub trait Sheets {
    ghost meaning: { Self → Almanac };

    fn name(&self) -> &str
        ensures { result.now ≡ (meaning self.now).name };

    // The highest plain month number, 12 or 13.
    fn top(&self) -> u8
        ensures { result ≡ (meaning self.now).top };

    // Whether the leap month of this number is one that the calendar may have.
    fn states_leap(&self, number: u8) -> bool
        ensures { result ≡ (meaning self.now).leaps number };

    fn sheet(&self, year: u32) -> Sheet
        ensures { result ≡ (meaning self.now).sheet year };

    ghost lawful: { (c : Self) → Lawful (meaning c) };
}

// A calendar: the sheet question and the date question.
pub trait Calendar: Sheets {
    // The year, the month's place in it, counted from 1, and the day of the month.
    fn date(&self, day: u32) -> Option<(u32, u8, u8)>
        ensures { Dated (Self.Sheets.meaning self.now) day result };
}
