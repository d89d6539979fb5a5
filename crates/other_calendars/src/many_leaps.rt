// A calendar with a leap month in two years of three, which follows another month each year.
ghost use Rattle.std.specs.Prelude.{◌≡◌, ◌≤◌};
ghost use Rattle.other_calendars.specs.ManyLeaps.{many_leaps, many_leaps_year, common_year, leap_year, leap_lengths, new_year};
ghost use Rattle.other_calendars.specs.Laws.{many_leaps_laws};

use calendar::{Calendar, Sheet, Sheets, date_from, year_codes};

// The years that it answers. Each calendar says its own: a type for a range would be no plainer.
const LOWEST: u32 = 100;

const HIGHEST: u32 = 400;

// The year from which dates are looked for, in the middle of those.
const MIDDLE: u32 = 250;

// How many days of twelve years in turn, from year 100 on, are past when each of them begins.
const PAST: [u16; 12] = [
    0, 355, 740, 1094, 1478, 1833, 2187, 2563, 2947, 3301, 3686, 4062,
];

// The lengths of the plain months, and a place for a leap month.
const PLAIN: [u8; 13] = [30, 29, 30, 29, 30, 29, 30, 29, 30, 29, 30, 29, 0];

// The length of the leap month, in four kinds of years.
const LEAP: [u8; 4] = [1, 31, 22, 30];

#[derive(Clone, Copy)]
pub struct ManyLeaps;

fn first_day(year: u32) -> u32
    requires { (100 ≤ year) × (year ≤ 10000) }
    ensures { result ≡ new_year year }
{
    693_050 + 4416 * ((year - 100) / 12) + u32::from(PAST[((year - 100) % 12) as usize])
}

// The lengths of the months where one of `days` days stands directly after the month `number`.
fn lengths_with_leap(number: u8, days: u8) -> [u8; 13]
    requires { number ≤ 12 }
    ensures { result ≡ leap_lengths number days }
{
    let mut lengths = PLAIN;
    let rest = &mut lengths[usize::from(number)..];
    rest.rotate_right(1);
    rest[0] = days;
    lengths
}

fn common_sheet(year: u32) -> Sheet
    requires { (100 ≤ year) × (year ≤ 10000) }
    ensures { result ≡ common_year year }
{
    Sheet {
        first: first_day(year),
        months: 12,
        codes: year_codes(12, None),
        lengths: PLAIN,
    }
}

fn leap_sheet(year: u32) -> Sheet
    requires { (100 ≤ year) × (year ≤ 10000) }
    ensures { result ≡ leap_year year }
{
    let number = ((year - 99) % 11) as u8 + 1;
    Sheet {
        first: first_day(year),
        months: 13,
        codes: year_codes(12, Some(number)),
        lengths: lengths_with_leap(number, LEAP[(year % 4) as usize]),
    }
}

fn year_sheet(year: u32) -> Sheet
    requires { (100 ≤ year) × (year ≤ 10000) }
    ensures { result ≡ many_leaps_year year }
{
    if year % 3 == 0 {
        common_sheet(year)
    } else {
        leap_sheet(year)
    }
}

impl Sheets for ManyLeaps {
    ghost meaning = { λ _. many_leaps };

    ghost lawful = { λ c. many_leaps_laws };

    fn name(&self) -> &str {
        "leaps12"
    }

    fn top(&self) -> u8 {
        12
    }

    fn states_leap(&self, number: u8) -> bool {
        (1..=11).contains(&number)
    }

    fn sheet(&self, year: u32) -> Sheet {
        if (LOWEST..=HIGHEST).contains(&year) {
            year_sheet(year)
        } else {
            Sheet::empty()
        }
    }
}

impl Calendar for ManyLeaps {
    fn date(&self, day: u32) -> Option<(u32, u8, u8)> {
        date_from(self, MIDDLE, day)
    }
}
