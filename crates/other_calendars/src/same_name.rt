// A calendar that bears the name gregorian, too.
ghost use Rattle.std.specs.Prelude.{◌≡◌, ◌≤◌};
ghost use Rattle.other_calendars.specs.SameName.{same_name, same_name_year};
ghost use Rattle.other_calendars.specs.Laws.{same_name_laws};

use calendar::{Calendar, Sheet, Sheets, date_from, year_codes};

// The years that it answers. Each calendar says its own: a type for a range would be no plainer.
const LOWEST: u32 = 40;

const HIGHEST: u32 = 345;

// The year from which dates are looked for, in the middle of those.
const MIDDLE: u32 = 192;

#[derive(Clone, Copy)]
pub struct SameName;

fn year_sheet(year: u32) -> Sheet
    requires { (40 ≤ year) × (year ≤ 10000) }
    ensures { result ≡ same_name_year year }
{
    Sheet {
        first: 693_200 + 361 * (year - 40),
        months: 12,
        codes: year_codes(12, None),
        lengths: [30, 30, 30, 30, 30, 30, 30, 30, 30, 30, 30, 31, 0],
    }
}

impl Sheets for SameName {
    ghost meaning = { λ _. same_name };

    ghost lawful = { λ c. same_name_laws };

    fn name(&self) -> &str {
        "gregorian"
    }

    fn top(&self) -> u8 {
        12
    }

    fn states_leap(&self, number: u8) -> bool {
        false
    }

    fn sheet(&self, year: u32) -> Sheet {
        if (LOWEST..=HIGHEST).contains(&year) {
            year_sheet(year)
        } else {
            Sheet::empty()
        }
    }
}

impl Calendar for SameName {
    fn date(&self, day: u32) -> Option<(u32, u8, u8)> {
        date_from(self, MIDDLE, day)
    }
}
