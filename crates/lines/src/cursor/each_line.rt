// The lines from a cursor on as an iterator.
ghost use Rattle.std.specs.Prelude.{◌≡◌, List, if◌then◌else◌};
ghost use Rattle.lines.specs.Lines.{Line};
ghost use Rattle.lines.specs.View.{view, view as lines_from, rest as rest_from, line_of};

use super::Cursor;
use std::marker::Model;

// The lines that are left, each as a cursor at its start. The walk past a line waits until the next is wanted.
#[derive(Drop)]
pub struct Lines<'a> {
    // the line that was given last, or the first
    at: Cursor<'a>,
    given: bool,
}

impl<'a> Model for Lines<'a> {
    ghost Value = { List Line };

    ghost view = { λ l. (if l.given then (rest_from l.at).later else lines_from l.at) };
}

impl<'a> Cursor<'a> {
    // The lines from here on, where a line begins here.
    pub fn lines(self) -> Lines<'a>
        ensures { result ≡ view self.entry }
    {
        Lines {
            at: self,
            given: false,
        }
    }
}

impl<'a> Iterator for Lines<'a> {
    ghost use Rattle.std.specs.Iterator.{YieldsFirstBy, item_count};

    type Item = Cursor<'a>;

    ghost next_gives = { YieldsFirstBy line_of (λ s. s) };

    ghost remaining = { item_count (λ s. s) };

    fn next(&mut self) -> Option<Cursor<'a>> {
        if self.given {
            self.at.skip_line();
        }
        self.given = true;
        self.at.line()
    }
}
