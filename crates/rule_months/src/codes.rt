// The months that codes give in a year.
ghost use Rattle.std.specs.Prelude.{◌≡◌};
ghost use Rattle.rules.specs.Meaning.{has_code, stands_in, code_gives, chosen};

use crate::month::MonthOf;
use calendar::{MonthCode, Sheet};
use rules::{Rule, Skip};

// Whether the year has a month of the code.
fn has_code(sheet: &Sheet, code: MonthCode) -> bool
    ensures { result ≡ has_code sheet.now code }
{
    sheet.month_codes().contains(&code)
}

// Whether a month of that code stands in for the leap month of a number, in a year that lacks it.
fn stands_in(skip: Skip, number: u8, code: MonthCode) -> bool
    ensures { result ≡ stands_in skip number code }
{
    match skip {
        Skip::Omit => false,
        Skip::Backward => code == MonthCode::plain(number),
        Skip::Forward => number
            .checked_add(1)
            .is_some_and(|next| code == MonthCode::plain(next)),
    }
}

// Whether a month is the one that the code gives in the year.
pub fn code_gives(skip: Skip, month: &MonthOf, code: MonthCode) -> bool
    ensures { result ≡ code_gives skip month.now.year.sheet.now code month.now.place }
{
    let here = month.code();
    here == code
        || code.leap && !has_code(month.year.sheet, code) && stands_in(skip, code.number, here)
}

// Whether a month is one of BYMONTH's.
pub fn chosen_month(rule: &Rule, month: &MonthOf) -> bool
    ensures { result ≡ chosen rule.now month.now.year.sheet.now month.now.place }
{
    rule.parts
        .months
        .items()
        .iter()
        .any(|code| code_gives(rule.parts.skip, month, *code))
}
