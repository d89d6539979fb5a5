// The component reader and the body reader: how many events a file has, if its components nest.
ghost use Rattle.std.specs.Prelude.{◌≡◌, ◌+◌, ◌-◌, ◌<◌, ◌≤◌, [], length, IfSome, IfNone, if◌then◌else◌, Some, None};
ghost use Rattle.lines.specs.Lines.{logical_lines};
ghost use Rattle.lines.specs.View.{view, text};
ghost use Rattle.components.specs.Nest.{told, walk, kinds, one_calendar};
ghost use Rattle.components.specs.Events.{events, events_in, is_event};

use crate::delimiter::{Delimiter, delimiter_of};
use crate::kind::{Kind, kind_of};
use lines::{Cursor, value_of};
use text::{reads, same_text};

// A component whose BEGIN is read, and how many others stand open around it.
#[derive(Clone, Copy)]
struct Open<'a> {
    name: Cursor<'a>,
    depth: u8,
    ghost within: { depth < 8 },
}

impl<'a> Open<'a> {
    // The component `name` inside this one, or none where eight stand open.
    fn inside(&self, name: Cursor<'a>) -> Option<Open<'a>>
        ensures eighth { IfNone result (self.now.depth ≡ 7) }
        ensures deeper { IfSome result (λ inner. inner.depth ≡ self.now.depth + 1) }
        ensures named { IfSome result (λ inner. inner.name ≡ name.entry) }
    {
        if self.depth >= 7 {
            return None;
        }
        Some(Open {
            name,
            depth: self.depth + 1,
        })
    }

    // How many events it is, without what it holds: one or none.
    fn events_begun(&self) -> usize
        ensures value { result ≡ (if is_event self.now.depth (text self.now.name) then 1 else 0) }
        ensures few { result ≤ 1 }
    {
        usize::from(self.depth == 1 && reads(self.name, b"VEVENT"))
    }
}

// Reads a component to past its END: how many events it and what it holds are.
// `on` stands beside `left` here and in `body`: without it the loop's measure takes an induction over `walk`.
#[cycle(body_component)]
fn component(lines: &mut Cursor, opened: Open) -> Option<usize>
    ensures left { told result (kinds (view lines.new)) ≡ walk (7 - opened.entry.depth) (text opened.entry.name) [] (kinds (view lines.old)) }
    ensures on { length (view lines.new) ≤ length (view lines.old) }
    ensures counted { IfSome result (λ n. n + length (events opened.entry.depth (view lines.new)) ≡ (if is_event opened.entry.depth (text opened.entry.name) then 1 else 0) + length (events (opened.entry.depth + 1) (view lines.old))) }
{
    let inside = body(lines, opened)?;
    Some(inside + opened.events_begun())
}

// Reads what a component holds, to past its END: how many events that is.
#[cycle(body_component)]
fn body(lines: &mut Cursor, opened: Open) -> Option<usize>
    ensures left { told result (kinds (view lines.new)) ≡ walk (7 - opened.entry.depth) (text opened.entry.name) [] (kinds (view lines.old)) }
    ensures on { length (view lines.new) ≤ length (view lines.old) }
    ensures counted { IfSome result (λ n. n + length (events opened.entry.depth (view lines.new)) ≡ length (events (opened.entry.depth + 1) (view lines.old))) }
{
    let mut count = 0;
    while let Some(line) = lines.next_line() {
        match kind_of(line) {
            Kind::Begin(name) => count += component(lines, opened.inside(name)?)?,
            Kind::End(name) => return same_text(name, opened.name).then_some(count),
            Kind::Other => {}
        }
    }
    None
}

// How many events the file has, if one VCALENDAR stands around all its lines.
pub fn count_events(file: &[u8]) -> Option<usize>
    ensures { result ≡ (if one_calendar (logical_lines file.now) then Some (length (events_in (logical_lines file.now))) else None) }
{
    let mut lines = Cursor::new(file);
    let line = lines.next_line()?;
    if !matches!(delimiter_of(line), Delimiter::Begin) {
        return None;
    }
    let name = value_of(line);
    if !reads(name, b"VCALENDAR") {
        return None;
    }
    let count = component(&mut lines, Open { name, depth: 0 })?;
    lines.line().is_none().then_some(count)
}
