// The items of lists: a number and the letters after it.
ghost use Rattle.std.specs.Prelude.{◌≡◌};
ghost use Rattle.std.specs.Char.{is_ascii_alphabetic};
ghost use Rattle.rule_values.specs.Items.{lettered, leap_read, which_read, month_code_read, month_day_read, by_day_read};

use crate::form::Form;
use crate::numbers::{read_position, read_small};
use calendar::MonthCode;
use days::weekday::Weekday;
use rules::{ByDay, Position};
use text::{Bytes, Stop, UpTo, reads};

// Stops at a letter.
#[derive(Clone, Copy)]
struct Letter;

impl Stop for Letter {
    ghost stops = { λ _ b. is_ascii_alphabetic b };

    fn stops(&self, b: u8) -> bool {
        b.is_ascii_alphabetic()
    }
}

// The text from its first letter on. By hand, since a chain ends in an iterator, and what reads on takes a `Bytes`.
fn from_letters<B: Bytes>(text: B) -> B
    ensures { B.Bytes.left result ≡ lettered (B.Bytes.left text) }
{
    let mut rest = text;
    let mut here = text;
    while rest.next().is_some_and(|b| !b.is_ascii_alphabetic()) {
        here = rest;
    }
    here
}

// Whether L stands after a month's number; nothing, if something else does.
// Beside read_which: one function of both with a closure would need clauses longer than they are.
fn read_leap<B: Bytes>(text: B) -> Option<bool>
    ensures { result ≡ leap_read (B.Bytes.left text) }
{
    let mut first = text;
    first
        .next()
        .map_or(Some(false), |_| reads(text, b"L").then_some(true))
}

// The number before a weekday, if there is one.
fn read_which<B: Bytes>(text: B) -> Option<Option<Position>>
    ensures { result ≡ which_read (B.Bytes.left text) }
{
    let mut first = text;
    first
        .next()
        .map_or(Some(None), |_| read_position(text, 53).map(Some))
}

impl Form for MonthCode {
    ghost reading = { month_code_read };

    fn read<B: Bytes>(text: B) -> Option<MonthCode> {
        let leap = read_leap(from_letters(text))?;
        let number = read_small(UpTo::new(text, Letter), 13)?;
        Some(MonthCode { number, leap })
    }
}

// A day of a month.
impl Form for Position {
    ghost reading = { month_day_read };

    fn read<B: Bytes>(text: B) -> Option<Position> {
        read_position(text, 31)
    }
}

impl Form for ByDay {
    ghost reading = { by_day_read };

    fn read<B: Bytes>(text: B) -> Option<ByDay> {
        let weekday = <Weekday as Form>::read(from_letters(text))?;
        let position = read_which(UpTo::new(text, Letter))?;
        Some(ByDay { weekday, position })
    }
}
