// From period to period: where a search through a rule's periods begins, and which period comes next.
ghost use Rattle.std.specs.Prelude.{◌≡◌, ◌+◌, ◌-◌, ◌*◌, ◌/◌, ◌<◌, true};
ghost use Rattle.days.specs.Numbers.{in_range, remainder};
ghost use Rattle.rules.specs.Meaning.{week_of};
ghost use Rattle.rule_days.specs.Onward.{Steps, MonthsOn, YearBefore};

use calendar::Calendar;
use days::weekday::Weekday;
use rules::Period;

// The month `count` months on from a place of a year, or none if a year on the way is not answered. A walk: each step
// asks for the sheet of the year that it has come to.
fn months_on<C: Calendar>(
    calendar: &C,
    mut year: u32,
    mut place: u8,
    count: u16,
) -> Option<(u32, u8)>
    ensures { MonthsOn (C.Sheets.meaning calendar.now) (year, place) count result }
{
    let mut months = calendar.sheet(year).months;
    for _i in 0..count {
        if months == 0 {
            return None;
        }
        if place < months {
            place += 1;
        } else {
            year = year.checked_add(1)?;
            place = 1;
            months = calendar.sheet(year).months;
        }
    }
    Some((year, place))
}

// The period that counts after `period`, or none if no later one has a day of the range.
pub fn next_period<C: Calendar>(calendar: &C, period: Period, interval: u16) -> Option<Period>
    ensures { Steps (C.Sheets.meaning calendar.now) period interval result }
{
    let step = u32::from(interval);
    // By `?`: with `map` the proof did not close, which looks at a step and at the want of one apart.
    match period {
        Period::Year(year) => Some(Period::Year(year.checked_add(step)?)),
        Period::Month(year, place) => {
            let (year, place) = months_on(calendar, year, place, interval)?;
            Some(Period::Month(year, place))
        }
        Period::Week(first) => Some(Period::Week(first.checked_add(7 * step)?)),
        Period::Day(day) => Some(Period::Day(day.checked_add(step)?)),
    }
}

// The last of the numbers `from`, `from + step` and so on that is at most `to`, or `from` if none is.
pub fn last_counted(from: u32, step: u32, to: u32) -> u32
    requires { 0 < step }
    ensures { result ≡ from + (to - from) / step * step }
{
    from + to.saturating_sub(from) / step * step
}

// The first day of a day's week, where weeks begin on `week_start`.
pub fn week_of(week_start: Weekday, day: u32) -> u32
    requires { in_range day ≡ true }
    ensures { result ≡ week_of (remainder week_start) day }
{
    day - (day + 7 - week_start.number()) % 7
}

// The last year counted from `year` on that begins before the day `low`, or `year` if none does.
pub fn first_year<C: Calendar>(calendar: &C, year: u32, interval: u32, low: u32) -> u32
    requires { (0 < interval) × (0 < low) }
    ensures { YearBefore (C.Sheets.meaning calendar.now) year interval low result }
{
    let before = calendar.date(low - 1);
    before.map_or(year, |(last, _, _)| last_counted(year, interval, last))
}
