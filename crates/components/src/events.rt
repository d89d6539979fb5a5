// The events of a file, one after another, and the lines of an event that have a name.
ghost use Rattle.std.specs.Prelude.{◌≡◌, ◌<◌, ◌≤◌, [], ◌∷◌, length, MatchOption, IfSome};
ghost use Rattle.lines.specs.View.{view, rest, line_of};
ghost use Rattle.components.specs.Events.{own, events, event_at, picked};

use crate::delimiter::{Delimiter, delimiter_of};
use lines::{Cursor, named, value_of};
use text::reads;

// The BEGIN of the next event, from inside `inside` components; goes on to the line after it.
// `on` stands beside `found` and `later`: who reads on in a loop needs that the lines get fewer.
pub fn next_event<'a>(lines: &mut Cursor<'a>, inside: usize) -> Option<Cursor<'a>>
    requires { inside ≤ 2 }
    ensures found { MatchOption result (events inside (view lines.old) ≡ []) (λ event. events inside (view lines.old) ≡ event_at event ∷ events 2 (view lines.new)) }
    ensures later { MatchOption result (view lines.new ≡ []) (λ event. view lines.new ≡ (rest event).later) }
    ensures on { IfSome result (λ _. length (view lines.new) < length (view lines.old)) }
    ensures begins { IfSome result (λ event. view event ≡ line_of event ∷ (rest event).later) }
{
    // Not one walk with `first_named`: an END at level 0 ends that one, and this one goes on.
    let mut depth = inside;
    while let Some(line) = lines.next_line() {
        match delimiter_of(line) {
            Delimiter::Begin if depth == 1 && reads(value_of(line), b"VEVENT") => return Some(line),
            Delimiter::Begin => depth += 1,
            Delimiter::End => depth = depth.saturating_sub(1),
            Delimiter::Other => {}
        }
    }
    None
}

// The component's first own line named `name`, from the line where the cursor stands on.
pub fn first_named<'a>(lines: Cursor<'a>, name: &[u8]) -> Option<Cursor<'a>>
    ensures { MatchOption result (picked name.now (own 0 (view lines.entry)) ≡ []) (λ line. picked name.now (own 0 (view lines.entry)) ≡ line_of line ∷ picked name.now (own 0 (rest line).later)) }
{
    // Not a chain over `lines()`: its items do not say what stands after the line that is found, as is promised here.
    let mut lines = lines;
    let mut depth: usize = 0;
    // A line is looked at before the walk past it, so that the line that is found and the END are not walked.
    while let Some(line) = lines.line() {
        match delimiter_of(line) {
            Delimiter::Begin => depth += 1,
            Delimiter::End => depth = depth.checked_sub(1)?,
            Delimiter::Other if depth == 0 && named(line, name) => return Some(line),
            Delimiter::Other => {}
        }
        lines.skip_line();
    }
    None
}

// The component's next own line named `name` after the line `after`, which is its BEGIN or an own line.
pub fn next_named<'a>(after: Cursor<'a>, name: &[u8]) -> Option<Cursor<'a>>
    ensures { MatchOption result (picked name.now (own 0 (rest after.entry).later) ≡ []) (λ line. picked name.now (own 0 (rest after.entry).later) ≡ line_of line ∷ picked name.now (own 0 (rest line).later)) }
{
    let mut lines = after;
    lines.skip_line();
    first_named(lines, name)
}
