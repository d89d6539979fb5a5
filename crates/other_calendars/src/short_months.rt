// A calendar of thirteen months, of which one has at most three days.
ghost use Rattle.std.specs.Prelude.{◌≡◌, ◌≤◌};
ghost use Rattle.other_calendars.specs.ShortMonths.{short_months, short_months_year};
ghost use Rattle.other_calendars.specs.Laws.{short_months_laws};

use calendar::{Calendar, Sheet, Sheets, date_from, year_codes};

// The years that it answers. Each calendar says its own: a type for a range would be no plainer.
const LOWEST: u32 = 5;

const HIGHEST: u32 = 310;

// The year from which dates are looked for, in the middle of those.
const MIDDLE: u32 = 157;

// How many days of nine years in turn, from year 5 on, are past when each of them begins.
const PAST: [u16; 9] = [0, 365, 724, 1075, 1435, 1805, 2167, 2538, 2902];

// The lengths of the months 7 and 13, in three kinds of years each.
const SEVENTH: [u8; 3] = [29, 20, 28];

const THIRTEENTH: [u8; 3] = [31, 25, 20];

#[derive(Clone, Copy)]
pub struct ShortMonths;

fn year_sheet(year: u32) -> Sheet
    requires { (5 ≤ year) × (year ≤ 10000) }
    ensures { result ≡ short_months_year year }
{
    let second = 1 + (year % 3) as u8;
    let seventh = SEVENTH[(year % 3) as usize];
    let thirteenth = THIRTEENTH[(year / 3 % 3) as usize];
    Sheet {
        first: 693_100 + 3258 * ((year - 5) / 9) + u32::from(PAST[((year - 5) % 9) as usize]),
        months: 13,
        codes: year_codes(13, None),
        lengths: [
            31, second, 31, 31, 30, 31, seventh, 31, 31, 31, 31, 31, thirteenth,
        ],
    }
}

impl Sheets for ShortMonths {
    ghost meaning = { λ _. short_months };

    ghost lawful = { λ c. short_months_laws };

    fn name(&self) -> &str {
        "odd13"
    }

    fn top(&self) -> u8 {
        13
    }

    fn states_leap(&self, number: u8) -> bool {
        false
    }

    fn sheet(&self, year: u32) -> Sheet {
        if (LOWEST..=HIGHEST).contains(&year) {
            year_sheet(year)
        } else {
            Sheet::empty()
        }
    }
}

impl Calendar for ShortMonths {
    fn date(&self, day: u32) -> Option<(u32, u8, u8)> {
        date_from(self, MIDDLE, day)
    }
}
