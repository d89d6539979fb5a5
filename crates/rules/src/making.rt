// From parts to a checked rule.
ghost use Rattle.std.specs.Prelude.{◌≡◌, true};
ghost use Rattle.rules.specs.Parts.{some_of, each_of, code_ok, position_ok, number_ok, numbered, takes_numbers, takes_month_days, lists_fit, numbers_fit, parts_fit};
ghost use Rattle.rules.specs.Making.{Made};

use crate::Rule;
use crate::parts::{ByDay, Frequency, Parts, Position};
use calendar::MonthCode;

// Whether a position is not 0 and at most `most`.
fn position_ok(most: u8, position: Position) -> bool
    ensures { result ≡ position_ok most position }
{
    match position {
        Position::FromStart(v) | Position::FromEnd(v) => (1..=most).contains(&v),
    }
}

// Whether a month's number is within its bounds.
fn code_ok(code: MonthCode) -> bool
    ensures { result ≡ code_ok code }
{
    (1..=13).contains(&code.number)
}

// Whether one of the weekdays has a number.
pub fn some_numbered(list: &[ByDay]) -> bool
    ensures { result ≡ some_of (λ b. numbered b.position) list.now }
{
    list.iter().any(|by_day| by_day.position.is_some())
}

// Whether numbered weekdays stand with the frequency.
pub fn takes_numbers(frequency: Frequency) -> bool
    ensures { result ≡ takes_numbers frequency }
{
    matches!(frequency, Frequency::Yearly | Frequency::Monthly)
}

// Whether BYMONTHDAY stands with the frequency.
pub fn takes_month_days(frequency: Frequency) -> bool
    ensures { result ≡ takes_month_days frequency }
{
    !matches!(frequency, Frequency::Weekly)
}

impl Parts {
    // Whether the lists are no longer than they may be. Their types say so too, yet without this test the proof of
    // `checked` does not close, since the definition asks it of any lists.
    fn lists_fit(&self) -> bool
        ensures { result ≡ lists_fit self.now.months self.now.month_days self.now.weekdays }
    {
        self.months.len() <= 16 && self.month_days.len() <= 62 && self.weekdays.len() <= 16
    }

    fn months_fit(&self) -> bool
        ensures { result ≡ each_of code_ok self.now.months }
    {
        self.months.items().iter().all(|code| code_ok(*code))
    }

    fn month_days_fit(&self) -> bool
        ensures { result ≡ each_of (position_ok 31) self.now.month_days }
    {
        self.month_days
            .items()
            .iter()
            .all(|value| position_ok(31, *value))
    }

    fn weekdays_fit(&self) -> bool
        ensures { result ≡ each_of (λ b. number_ok b.position) self.now.weekdays }
    {
        self.weekdays.items().iter().all(|by_day| by_day
            .position
            .is_none_or(|which| position_ok(53, which)))
    }

    // Whether every number is within its bounds.
    fn numbers_fit(&self) -> bool
        ensures { result ≡ numbers_fit self.now.interval self.now.months self.now.month_days self.now.weekdays }
    {
        (1..=999).contains(&self.interval)
            && self.months_fit()
            && self.month_days_fit()
            && self.weekdays_fit()
    }

    // Whether no part stands with a frequency that does not take it.
    fn parts_fit(&self) -> bool
        ensures { result ≡ parts_fit self.now.frequency self.now.month_days self.now.weekdays }
    {
        let no_values = self.month_days.is_empty();
        let numbered = some_numbered(self.weekdays.items());
        (no_values || takes_month_days(self.frequency))
            && (!numbered || takes_numbers(self.frequency) && no_values)
    }

    // The rule that says just these parts, or none where they do not fit together. `TryFrom` would need an error that
    // says no more than none.
    pub fn checked(&self) -> Option<Rule>
        ensures { Made self.now result }
    {
        if !(self.lists_fit() && self.numbers_fit() && self.parts_fit()) {
            return None;
        }
        Some(Rule { parts: *self })
    }
}
