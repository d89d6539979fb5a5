// Lists between commas, and texts that are kept whole.
ghost use Rattle.std.specs.Prelude.{◌≡◌};
ghost use Rattle.rule_values.specs.Lists.{list_read, at_most};

use crate::form::Form;
use short_lists::{Blank, ShortList};
use text::{Bytes, Pieces};

// A list between commas of at most N items.
impl<T: Form + Blank, const N: usize> Form for ShortList<T, N> {
    ghost reading = { list_read N T.Form.reading };

    fn read<B: Bytes>(text: B) -> Option<ShortList<T, N>> {
        let mut items = ShortList::new();
        for item in Pieces::of(text, b',') {
            // before the read: an item for which there is no room may be long
            if items.len() == N {
                return None;
            }
            items.push(T::read(item)?).ok()?;
        }
        Some(items)
    }
}

// The bytes of a text, if there are at most N.
// A loop of its own: `read` above takes pieces between commas, and first_bytes of crate vevent ends where this refuses.
pub fn copy_bytes<B: Bytes, const N: usize>(text: B) -> Option<ShortList<u8, N>>
    ensures { result ≡ at_most N (B.Bytes.left text) }
{
    let mut bytes = ShortList::new();
    for b in text.each() {
        bytes.push(b).ok()?;
    }
    Some(bytes)
}
