// The Coptic calendar.
ghost use Rattle.std.specs.Prelude.{◌≡◌, ◌≤◌};
ghost use Rattle.calendars.specs.Coptic.{coptic, coptic_year};
ghost use Rattle.calendars.specs.Laws.{coptic_laws};

use calendar::{Calendar, Sheet, Sheets, date_from, year_codes};

// The years that lie wholly in the span. Each calendar says its own: a type for a range would be no plainer.
const LOWEST: u32 = 1615;

const HIGHEST: u32 = 1917;

// The year from which dates are looked for, in the middle of those.
const MIDDLE: u32 = 1766;

#[derive(Clone, Copy)]
pub struct Coptic;

fn year_sheet(year: u32) -> Sheet
    requires { (1 ≤ year) × (year ≤ 10000) }
    ensures { result ≡ coptic_year year }
{
    let thirteenth = if year % 4 == 3 { 6 } else { 5 };
    Sheet {
        first: 103_605 + 365 * (year - 1) + year / 4,
        months: 13,
        codes: year_codes(13, None),
        lengths: [30, 30, 30, 30, 30, 30, 30, 30, 30, 30, 30, 30, thirteenth],
    }
}

impl Sheets for Coptic {
    ghost meaning = { λ _. coptic };

    ghost lawful = { λ c. coptic_laws };

    fn name(&self) -> &str {
        "coptic"
    }

    fn top(&self) -> u8 {
        13
    }

    fn states_leap(&self, number: u8) -> bool {
        false
    }

    fn sheet(&self, year: u32) -> Sheet {
        if (LOWEST..=HIGHEST).contains(&year) {
            year_sheet(year)
        } else {
            Sheet::empty()
        }
    }
}

impl Calendar for Coptic {
    fn date(&self, day: u32) -> Option<(u32, u8, u8)> {
        date_from(self, MIDDLE, day)
    }
}
