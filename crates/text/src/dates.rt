// A date of eight digits, read from bytes.
ghost use Rattle.std.specs.Prelude.{◌≡◌};
ghost use Rattle.text.specs.Dates.{day_in, eight_only};

use crate::Bytes;
use days::digits::read_date;

// The first eight bytes that are left, or none if there are fewer or more: a fold may stand between any two of them.
fn eight_bytes<B: Bytes>(text: B) -> Option<[u8; 8]>
    ensures { result ≡ eight_only (B.Bytes.left text) }
{
    let mut text = text;
    let mut bytes = [0; 8];
    for byte in &mut bytes {
        *byte = text.next()?;
    }
    text.next().is_none().then_some(bytes)
}

// The day that a text names by eight digits, or none if it names none.
pub fn read_day<B: Bytes>(text: B) -> Option<u32>
    ensures { result ≡ day_in (B.Bytes.left text) }
{
    read_date(&eight_bytes(text)?).ok()
}
