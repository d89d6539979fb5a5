// The Hebrew calendar.
ghost use Rattle.std.specs.Prelude.{◌≡◌, ◌≤◌};
ghost use Rattle.calendars.specs.Hebrew.{hebrew, hebrew_year, new_year, leap_year, elapsed, correction, second, third, laid_out};
ghost use Rattle.calendars.specs.Laws.{hebrew_laws};

use calendar::{Calendar, Sheet, Sheets, date_from, year_codes};

// The years that lie wholly in the span. Each calendar says its own: a type for a range would be no plainer.
const LOWEST: u32 = 5659;

const HIGHEST: u32 = 5961;

// The year from which dates are looked for, in the middle of those.
const MIDDLE: u32 = 5810;

#[derive(Clone, Copy)]
pub struct Hebrew;

// A rule of its own, which the Islamic one is like in shape only.
fn is_leap(year: u32) -> bool
    requires { year ≤ 10000 }
    ensures { result ≡ leap_year year }
{
    (7 * year + 1) % 19 < 7
}

// The days before the year, as yet uncorrected.
fn days_before(year: u32) -> u32
    requires { (1 ≤ year) × (year ≤ 10000) }
    ensures { result ≡ elapsed year }
{
    let months = (235 * year - 234) / 19;
    let days = 29 * months + (12_084 + 13_753 * months) / 25_920;
    if 3 * (days + 1) % 7 < 3 {
        days + 1
    } else {
        days
    }
}

// From the days before the last year, this one and the next.
fn year_correction(last: u32, this: u32, next: u32) -> u32
    requires { (last ≤ this) × (this ≤ next) }
    ensures { result ≡ correction last this next }
{
    if next - this == 356 {
        2
    } else if this - last == 382 {
        1
    } else {
        0
    }
}

fn first_day(year: u32) -> u32
    requires { (5000 ≤ year) × (year ≤ 9000) }
    ensures { result ≡ new_year year }
{
    let days = days_before(year);
    days + year_correction(days_before(year - 1), days, days_before(year + 1)) - 1_373_427
}

// The two months below differ in length each in years of its own: one function for both would be no plainer.
fn second_month(days: u32) -> u8
    ensures { result ≡ second days }
{
    if days == 355 || days == 385 { 30 } else { 29 }
}

fn third_month(days: u32) -> u8
    ensures { result ≡ third days }
{
    if days == 353 || days == 383 { 29 } else { 30 }
}

fn lay_out(leap: bool, first: u32, days: u32) -> Sheet
    ensures { result ≡ laid_out leap first days }
{
    let second = second_month(days);
    let third = third_month(days);
    if leap {
        Sheet {
            first,
            months: 13,
            codes: year_codes(12, Some(5)),
            lengths: [30, second, third, 29, 30, 30, 29, 30, 29, 30, 29, 30, 29],
        }
    } else {
        Sheet {
            first,
            months: 12,
            codes: year_codes(12, None),
            lengths: [30, second, third, 29, 30, 29, 30, 29, 30, 29, 30, 29, 0],
        }
    }
}

fn year_sheet(year: u32) -> Sheet
    requires { (5000 ≤ year) × (year ≤ 8000) }
    ensures { result ≡ hebrew_year year }
{
    let first = first_day(year);
    let next = first_day(year + 1);
    lay_out(is_leap(year), first, next - first)
}

impl Sheets for Hebrew {
    ghost meaning = { λ _. hebrew };

    ghost lawful = { λ c. hebrew_laws };

    fn name(&self) -> &str {
        "hebrew"
    }

    fn top(&self) -> u8 {
        12
    }

    fn states_leap(&self, number: u8) -> bool {
        number == 5
    }

    fn sheet(&self, year: u32) -> Sheet {
        if (LOWEST..=HIGHEST).contains(&year) {
            year_sheet(year)
        } else {
            Sheet::empty()
        }
    }
}

impl Calendar for Hebrew {
    fn date(&self, day: u32) -> Option<(u32, u8, u8)> {
        date_from(self, MIDDLE, day)
    }
}
