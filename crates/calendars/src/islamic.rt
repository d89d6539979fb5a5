// The Islamic civil calendar.
ghost use Rattle.std.specs.Prelude.{◌≡◌, ◌≤◌};
ghost use Rattle.calendars.specs.Islamic.{islamic_civil, islamic_year, leap_year};
ghost use Rattle.calendars.specs.Laws.{islamic_laws};

use calendar::{Calendar, Sheet, Sheets, date_from, year_codes};

// The years that lie wholly in the span. Each calendar says its own: a type for a range would be no plainer.
const LOWEST: u32 = 1316;

const HIGHEST: u32 = 1628;

// The year from which dates are looked for, in the middle of those.
const MIDDLE: u32 = 1472;

#[derive(Clone, Copy)]
pub struct IslamicCivil;

// A rule of its own, which the Hebrew one is like in shape only.
fn is_leap(year: u32) -> bool
    requires { year ≤ 10000 }
    ensures { result ≡ leap_year year }
{
    (14 + 11 * year) % 30 < 11
}

fn year_sheet(year: u32) -> Sheet
    requires { (1 ≤ year) × (year ≤ 10000) }
    ensures { result ≡ islamic_year year }
{
    let twelfth = if is_leap(year) { 30 } else { 29 };
    Sheet {
        first: 227_015 + 354 * (year - 1) + (3 + 11 * year) / 30,
        months: 12,
        codes: year_codes(12, None),
        lengths: [30, 29, 30, 29, 30, 29, 30, 29, 30, 29, 30, twelfth, 0],
    }
}

impl Sheets for IslamicCivil {
    ghost meaning = { λ _. islamic_civil };

    ghost lawful = { λ c. islamic_laws };

    fn name(&self) -> &str {
        "islamic-civil"
    }

    fn top(&self) -> u8 {
        12
    }

    fn states_leap(&self, number: u8) -> bool {
        false
    }

    fn sheet(&self, year: u32) -> Sheet {
        if (LOWEST..=HIGHEST).contains(&year) {
            year_sheet(year)
        } else {
            Sheet::empty()
        }
    }
}

impl Calendar for IslamicCivil {
    fn date(&self, day: u32) -> Option<(u32, u8, u8)> {
        date_from(self, MIDDLE, day)
    }
}
