// Numbers of one to four digits, with bounds and with signs.
ghost use Rattle.std.specs.Prelude.{◌≡◌, ◌≤◌, IfSome};
ghost use Rattle.rule_values.specs.Numbers.{number_read, number_to, position_read};

use crate::lists::copy_bytes;
use rules::Position;
use short_lists::ShortList;
use text::Bytes;

// The number that one to four digits write.
// A loop: the closure of a fold knows no bound on the number so far, and would have to check each step.
fn read_digits<B: Bytes>(text: B) -> Option<u16>
    ensures { result ≡ number_read (B.Bytes.left text) }
{
    let digits: ShortList<u8, 4> = copy_bytes(text)?;
    if digits.is_empty() {
        return None;
    }
    let mut n: u16 = 0;
    for b in digits.items() {
        if !b.is_ascii_digit() {
            return None;
        }
        n = n * 10 + u16::from(b - b'0');
    }
    Some(n)
}

// A number from 1 to `most`.
pub fn read_number<B: Bytes>(text: B, most: u16) -> Option<u16>
    ensures exact { result ≡ number_to most (B.Bytes.left text) }
    ensures positive { IfSome result (λ n. 1 ≤ n) }
    ensures bounded { IfSome result (λ n. n ≤ most) }
{
    read_digits(text).filter(|n| (1..=most).contains(n))
}

// The same for a bound that fits a byte.
pub fn read_small<B: Bytes>(text: B, most: u8) -> Option<u8>
    ensures { result ≡ number_to most (B.Bytes.left text) }
{
    u8::try_from(read_number(text, u16::from(most))?).ok()
}

// A number from 1 to `most` after a sign or none.
pub fn read_position<B: Bytes>(text: B, most: u8) -> Option<Position>
    ensures { result ≡ position_read most (B.Bytes.left text) }
{
    let mut unsigned = text;
    match unsigned.next() {
        Some(b'-') => read_small(unsigned, most).map(Position::FromEnd),
        Some(b'+') => read_small(unsigned, most).map(Position::FromStart),
        _ => read_small(text, most).map(Position::FromStart),
    }
}
