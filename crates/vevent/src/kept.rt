// What is kept of an event's own lines.
ghost use Rattle.std.specs.Prelude.{◌≡◌, take};
ghost use Rattle.components.specs.Events.{picked};
ghost use Rattle.vevent.specs.Kept.{start_of, days_listed, title_of};

use crate::event::EventLines;
use crate::lists::add_days;
use crate::questions::date_of_line;
use lines::value_of;
use short_lists::ShortList;
use text::Bytes;

// The day that the first DTSTART names.
pub fn start_of(event: &EventLines) -> Option<u32>
    ensures { result ≡ start_of event.now }
{
    date_of_line(event.named(b"DTSTART").next()?)
}

// The first N days that the own lines named `name` list, in their order.
pub fn days_of<const N: usize>(event: &EventLines, name: &[u8]) -> ShortList<u32, N>
    ensures { result ≡ take N (days_listed (picked name.now event.now.lines)) }
{
    let mut days = ShortList::new();
    for line in event.named(name) {
        add_days(&mut days, value_of(line));
    }
    days
}

// The first N bytes that are left of a text.
// Beside `copy_bytes` of crate rule_values, which refuses where this ends, and `add_days`: one function over any
// iterator would be no plainer, as its contract would speak of what it yields. Nor is `take(N)`: `push` still answers.
fn first_bytes<B: Bytes, const N: usize>(text: B) -> ShortList<u8, N>
    ensures { result ≡ take N (B.Bytes.left text) }
{
    let mut bytes = ShortList::new();
    for b in text.each() {
        if bytes.push(b).is_err() {
            break;
        }
    }
    bytes
}

// The first 32 bytes of the first SUMMARY's value, or none without SUMMARY.
pub fn title_of(event: &EventLines) -> Option<ShortList<u8, 32>>
    ensures { result ≡ title_of event.now }
{
    let line = event.named(b"SUMMARY").next()?;
    Some(first_bytes(value_of(line)))
}
