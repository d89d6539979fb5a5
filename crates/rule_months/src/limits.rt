// Tests that a rule makes of a day or of a month.
ghost use Rattle.std.specs.Prelude.{◌≡◌, true};
ghost use Rattle.rule_months.specs.Filling.{Small};
ghost use Rattle.rules.specs.Meaning.{on_weekday, weekday_passes, code_passes, names, value_passes, inside, in_position, weekday_gives, weekdays_give};

use calendar::MonthCode;
use days::weekday::Weekday;
use rules::{ByDay, Position, Rule, Stretch};

// Whether a day falls on the weekday.
fn on_weekday(day: u32, by_day: ByDay) -> bool
    ensures { result ≡ on_weekday day by_day }
{
    Weekday::of(day) == by_day.weekday
}

// The three limits are alike, yet the clauses about a closure would be longer than the line that they share.

// Whether BYDAY, as a limit, lets a day pass.
pub fn weekday_passes(rule: &Rule, day: u32) -> bool
    ensures { result ≡ weekday_passes rule.now day }
{
    rule.parts.weekdays.is_empty()
        || rule
            .parts
            .weekdays
            .items()
            .iter()
            .any(|by_day| on_weekday(day, *by_day))
}

// Whether BYMONTH, as a limit, lets a month pass. `contains` would compare the code with the whole list; `any` ends at the
// first that is the same.
pub fn code_passes(rule: &Rule, code: MonthCode) -> bool
    ensures { result ≡ code_passes rule.now code }
{
    rule.parts.months.is_empty() || rule.parts.months.items().iter().any(|other| *other == code)
}

// Whether a value names the day of a month of that length. Two numbers that two tests take: a type would be no plainer.
fn value_names(day: u8, length: u8, value: Position) -> bool
    ensures { result ≡ names day length value }
{
    match value {
        Position::FromStart(v) => day == v,
        Position::FromEnd(v) => u16::from(day) + u16::from(v) == u16::from(length) + 1,
    }
}

// Whether BYMONTHDAY, as a limit, lets the day of a month of that length pass.
pub fn value_passes(rule: &Rule, day: u8, length: u8) -> bool
    ensures { result ≡ value_passes rule.now day length }
{
    rule.parts.month_days.is_empty()
        || rule
            .parts
            .month_days
            .items()
            .iter()
            .any(|value| value_names(day, length, *value))
}

// What these three ask of a day is asked once, where its stretch is walked: a type for it would be no plainer.

// Whether a day is the so-manieth of its weekday in the stretch.
fn in_position(stretch: Stretch, day: u32, position: Option<Position>) -> bool
    requires { (Small stretch) × (inside stretch day ≡ true) }
    ensures { result ≡ in_position stretch day position }
{
    match position {
        None => true,
        Some(Position::FromStart(j)) => (day - stretch.from) / 7 + 1 == u32::from(j),
        Some(Position::FromEnd(j)) => (stretch.from + stretch.size - 1 - day) / 7 + 1
            == u32::from(j),
    }
}

// Whether a weekday gives a day of the stretch.
fn weekday_gives(stretch: Stretch, day: u32, by_day: ByDay) -> bool
    requires { (Small stretch) × (inside stretch day ≡ true) }
    ensures { result ≡ weekday_gives stretch day by_day }
{
    on_weekday(day, by_day) && in_position(stretch, day, by_day.position)
}

// Whether BYDAY gives a day of the stretch.
pub fn weekdays_give(rule: &Rule, stretch: Stretch, day: u32) -> bool
    requires { (Small stretch) × (inside stretch day ≡ true) }
    ensures { result ≡ weekdays_give rule.now stretch day }
{
    rule.parts
        .weekdays
        .items()
        .iter()
        .any(|by_day| weekday_gives(stretch, day, *by_day))
}
