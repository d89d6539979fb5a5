// Month codes, as commands write them.
ghost use Rattle.std.specs.Prelude.{◌≡◌};
ghost use Rattle.commands.specs.Codes.{month_number, month_read, code_read};

use calendar::MonthCode;

// A month's number.
fn month_number(n: u8) -> Option<u8>
    ensures { result ≡ month_number n }
{
    (1..=13).contains(&n).then_some(n)
}

// A month's number of one or two digits.
fn read_month(bytes: &[u8]) -> Option<u8>
    ensures { result ≡ month_read bytes.now }
{
    match bytes {
        [a] if a.is_ascii_digit() => month_number(*a - b'0'),
        [a, b] if a.is_ascii_digit() && b.is_ascii_digit() => month_number(
            10 * (*a - b'0') + (*b - b'0'),
        ),
        _ => None,
    }
}

// A month code: 5, 05 or 5L.
pub fn read_code(bytes: &[u8]) -> Option<MonthCode>
    ensures { result ≡ code_read bytes.now }
{
    let (digits, leap) = match bytes {
        [digits @ .., b'L' | b'l'] => (digits, true),
        digits => (digits, false),
    };
    read_month(digits).map(|number| MonthCode { number, leap })
}
