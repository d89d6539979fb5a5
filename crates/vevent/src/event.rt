// The events of a file, and an event's own lines of a name.
ghost use Rattle.std.specs.Prelude.{◌≡◌};
ghost use Rattle.lines.specs.Lines.{logical_lines};
ghost use Rattle.components.specs.Events.{event_at, events_in, picked};

use components::{next_event, next_named};
use lines::Cursor;
use std::marker::Model;

// An event. Contracts see the place of its BEGIN and its own lines.
#[derive(Drop)]
pub struct EventLines<'a> {
    begin: Cursor<'a>,
}

impl<'a> Model for EventLines<'a> {
    ghost use Rattle.components.specs.Events.{Event, event_at};

    ghost Value = { Event };

    ghost view = { λ e. event_at e.begin };
}

impl<'a> EventLines<'a> {
    // The event whose BEGIN the cursor stands at.
    pub fn at(begin: Cursor<'a>) -> EventLines<'a>
        ensures { result ≡ event_at begin.entry }
    {
        EventLines { begin }
    }

    // Where its BEGIN stands.
    pub fn place(&self) -> usize
        ensures { result ≡ self.now.place }
    {
        self.begin.place()
    }

    // Its own lines named `name`, in their order.
    pub fn named<'n>(&self, name: &'n [u8]) -> NamedLines<'a, 'n>
        ensures { result ≡ picked name.now self.now.lines }
    {
        NamedLines {
            last: self.begin,
            name,
        }
    }
}

// The own lines of an event that have a name, from the one after `last` on. Contracts see the lines to come.
#[derive(Drop)]
pub struct NamedLines<'a, 'n> {
    last: Cursor<'a>,
    name: &'n [u8],
}

impl<'a, 'n> Model for NamedLines<'a, 'n> {
    ghost use Rattle.std.specs.Prelude.{List};
    ghost use Rattle.lines.specs.Lines.{Line};
    ghost use Rattle.lines.specs.View.{rest};
    ghost use Rattle.components.specs.Events.{own, picked};

    ghost Value = { List Line };

    ghost view = { λ s. picked s.name.now (own 0 (rest s.last).later) };
}

impl<'a, 'n> Iterator for NamedLines<'a, 'n> {
    ghost use Rattle.std.specs.Iterator.{YieldsFirstBy, item_count};
    ghost use Rattle.lines.specs.View.{line_of};

    type Item = Cursor<'a>;

    ghost next_gives = { YieldsFirstBy line_of (λ s. s) };

    ghost remaining = { item_count (λ s. s) };

    fn next(&mut self) -> Option<Cursor<'a>> {
        self.last = next_named(self.last, self.name)?;
        Some(self.last)
    }
}

// The events of a file that are left, one after another. Contracts see them.
#[derive(Drop)]
pub struct FileEvents<'a> {
    lines: Cursor<'a>,
    // how many components stand open before the next line: none at the start, two after an event's BEGIN
    inside: usize,
}

impl<'a> Model for FileEvents<'a> {
    ghost use Rattle.std.specs.Prelude.{◌≤◌, List};
    ghost use Rattle.lines.specs.View.{view as lines_left};
    ghost use Rattle.components.specs.Events.{Event, events};

    ghost Value = { List Event };

    ghost view = { λ s. events s.inside (lines_left s.lines) };

    ghost invariant = { λ s. s.inside ≤ 2 };
}

impl<'a> FileEvents<'a> {
    // All events of a file.
    pub fn of(file: &'a [u8]) -> FileEvents<'a>
        ensures { result ≡ events_in (logical_lines file.now) }
    {
        FileEvents {
            lines: Cursor::new(file),
            inside: 0,
        }
    }
}

impl<'a> Iterator for FileEvents<'a> {
    ghost use Rattle.std.specs.Iterator.{YieldsFirst, item_count};

    type Item = EventLines<'a>;

    ghost next_gives = { YieldsFirst (λ s. s) };

    ghost remaining = { item_count (λ s. s) };

    fn next(&mut self) -> Option<EventLines<'a>> {
        let begin = next_event(&mut self.lines, self.inside)?;
        self.inside = 2;
        Some(EventLines::at(begin))
    }
}
