// The Gregorian calendar.
ghost use Rattle.std.specs.Prelude.{◌≡◌, ◌≤◌};
ghost use Rattle.calendars.specs.Gregorian.{gregorian, gregorian_year};
ghost use Rattle.calendars.specs.Laws.{gregorian_laws};

use calendar::{Calendar, Sheet, Sheets, date_from, year_codes};
use days::gregorian::{month_lengths, new_year};

// The years that lie wholly in the span. Each calendar says its own: a type for a range would be no plainer.
const LOWEST: u32 = 1899;

const HIGHEST: u32 = 2201;

// The year from which dates are looked for, in the middle of those.
const MIDDLE: u32 = 2050;

#[derive(Clone, Copy)]
pub struct Gregorian;

fn year_sheet(year: u32) -> Sheet
    requires { (1 ≤ year) × (year ≤ 10000) }
    ensures { result ≡ gregorian_year year }
{
    let [jan, feb, mar, apr, may, jun, jul, aug, sep, oct, nov, dec] = month_lengths(year);
    Sheet {
        first: new_year(year),
        months: 12,
        codes: year_codes(12, None),
        lengths: [
            jan, feb, mar, apr, may, jun, jul, aug, sep, oct, nov, dec, 0,
        ],
    }
}

impl Sheets for Gregorian {
    ghost meaning = { λ _. gregorian };

    ghost lawful = { λ c. gregorian_laws };

    fn name(&self) -> &str {
        "gregorian"
    }

    fn top(&self) -> u8 {
        12
    }

    fn states_leap(&self, number: u8) -> bool {
        false
    }

    fn sheet(&self, year: u32) -> Sheet {
        if (LOWEST..=HIGHEST).contains(&year) {
            year_sheet(year)
        } else {
            Sheet::empty()
        }
    }
}

impl Calendar for Gregorian {
    fn date(&self, day: u32) -> Option<(u32, u8, u8)> {
        date_from(self, MIDDLE, day)
    }
}
