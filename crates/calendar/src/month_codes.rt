// The month codes of years.
ghost use Rattle.std.specs.Prelude.{◌≡◌, ◌<◌, ◌≤◌, IfSome};
ghost use Rattle.short_lists.specs.Places.{places};
ghost use Rattle.calendar.specs.Sheets.{no_code};
ghost use Rattle.calendar.specs.Codes.{plain_codes, year_codes};

use crate::MonthCode;
use short_lists::Blank;

// The plain codes 1 to `last`, and zeros behind.
fn plain_codes(last: u8) -> [MonthCode; 13]
    requires { last ≤ 13 }
    ensures { result ≡ places 13 no_code (plain_codes 1 last) }
{
    let mut codes = [1, 2, 3, 4, 5, 6, 7, 8, 9, 10, 11, 12, 13].map(MonthCode::plain);
    codes[usize::from(last)..].fill(MonthCode::blank());
    codes
}

// The codes of a year's months: the plain codes 1 to `last`, and directly after the plain code of its number the leap
// code, if there is one.
pub fn year_codes(last: u8, leap: Option<u8>) -> [MonthCode; 13]
    requires plain { last ≤ 13 }
    requires room { IfSome leap (λ number. (number ≤ last) × (last < 13)) }
    ensures { result ≡ year_codes last leap }
{
    let mut codes = plain_codes(last);
    if let Some(number) = leap {
        let rest = &mut codes[usize::from(number)..];
        rest.rotate_right(1);
        rest[0] = MonthCode::leap(number);
    }
    codes
}
