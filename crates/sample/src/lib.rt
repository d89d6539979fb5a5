// A fifth calendar, unlike the four: what stands above the laws takes it with nothing changed.
#![tactic(auto)]

ghost use Rattle.std.specs.Prelude.{◌≡◌, ◌≤◌};
ghost use Rattle.sample.specs.Wandering.{wandering, wandering_year, common_year, year_with_3L, year_with_9L};
ghost use Rattle.sample.specs.Laws.{laws};

use calendar::{Calendar, Sheet, Sheets, date_from, year_codes};

// The three kinds of years differ in their months alone, so that a function for all would take the whole sheet.
const LOWEST: u32 = 1;

const HIGHEST: u32 = 304;

#[derive(Clone, Copy)]
pub struct Wandering;

fn common_year(first: u32) -> Sheet
    ensures { result ≡ common_year first }
{
    Sheet {
        first,
        months: 12,
        codes: year_codes(12, None),
        lengths: [31, 28, 31, 28, 31, 28, 31, 28, 31, 28, 31, 28, 0],
    }
}

fn year_with_3l(first: u32) -> Sheet
    ensures { result ≡ year_with_3L first }
{
    Sheet {
        first,
        months: 13,
        codes: year_codes(12, Some(3)),
        lengths: [31, 28, 31, 30, 28, 31, 28, 31, 28, 31, 28, 31, 28],
    }
}

fn year_with_9l(first: u32) -> Sheet
    ensures { result ≡ year_with_9L first }
{
    Sheet {
        first,
        months: 13,
        codes: year_codes(12, Some(9)),
        lengths: [31, 28, 31, 28, 31, 28, 31, 28, 31, 30, 28, 31, 28],
    }
}

// The bound stands here, since each calendar counts other years: a type would be no plainer.
fn year_sheet(year: u32) -> Sheet
    requires { (1 ≤ year) × (year ≤ 10000) }
    ensures { result ≡ wandering_year year }
{
    let first = 692_746 + 354 * year + 30 * ((year - 1) / 3);
    if year % 6 == 0 {
        year_with_9l(first)
    } else if year % 3 == 0 {
        year_with_3l(first)
    } else {
        common_year(first)
    }
}

impl Sheets for Wandering {
    ghost meaning = { λ _. wandering };

    ghost lawful = { λ c. laws };

    fn name(&self) -> &str {
        "wandering"
    }

    fn top(&self) -> u8 {
        12
    }

    fn states_leap(&self, number: u8) -> bool {
        number == 3 || number == 9
    }

    // One test of its own range, as in the four: a function for all of them would be no plainer.
    fn sheet(&self, year: u32) -> Sheet {
        if (LOWEST..=HIGHEST).contains(&year) {
            year_sheet(year)
        } else {
            Sheet::empty()
        }
    }
}

impl Calendar for Wandering {
    fn date(&self, day: u32) -> Option<(u32, u8, u8)> {
        date_from(self, LOWEST, day)
    }
}

#[cfg(test)]
mod tests {
    use super::*;
    use calendar::{Empty, On, Shelf, date_named, day_named};
    use calendars::gregorian::Gregorian;
    use std::test::Fail;

    const SHELF: On<Gregorian, On<Wandering, Empty>> = On {
        calendar: Gregorian,
        rest: On {
            calendar: Wandering,
            rest: Empty,
        },
    };

    #[test]
    fn is_found_by_name(rt: HostRuntime) {
        assert_eq!(rt; SHELF.find(b"Wandering"), Some(1));
        assert_eq!(rt; SHELF.find(b"wanderer"), None);
    }

    // Every covered day has a date, and the date names the day.
    #[test]
    fn days_and_dates_agree(rt: HostRuntime) -> Result<(), Fail> {
        for day in 693_384..803_617 {
            // The test ends with words of its own where a day has no date.
            match date_named(&SHELF, 1, day) {
                Some(date) => assert_eq!(rt; day_named(&SHELF, 1, date), Some(day)),
                None => return Err(Fail::new("a covered day without a date")),
            }
        }
        Ok(())
    }

    // Day 1 of 3L of year 3: two years of 354 days and the months 1 to 3, from day 693,100 on.
    #[test]
    fn leap_month_by_hand(rt: HostRuntime) {
        assert_eq!(rt; SHELF.date(1, 693_100 + 708 + 90), Some((3, 4, 1)));
        assert_eq!(rt; SHELF.states_leap(1, 9), true);
    }
}
