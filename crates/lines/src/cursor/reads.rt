// What a cursor reads: a line's bytes without folds, and one line after another.
ghost use Rattle.std.specs.Prelude.{◌≡◌, ◌≤◌, false, [], ◌∷◌, length, MatchOption, IfSome};
ghost use Rattle.lines.specs.Lines.{logical_lines, folds};
ghost use Rattle.lines.specs.View.{rest, text, view, line_of};

use super::Cursor;
use text::Bytes;

impl<'a> Cursor<'a> {
    // At the start of the file's first line.
    pub fn new(file: &'a [u8]) -> Cursor<'a>
        ensures { view result ≡ logical_lines file.now }
    {
        Cursor {
            rest: file,
            place: 1,
        }
    }

    // Goes on past the folds that stand here: CR LF and then a blank or a tab.
    fn skip_folds(&mut self)
        ensures same { rest self.new ≡ rest self.old }
        ensures unfolded { folds self.new.rest.now ≡ false }
        ensures on { length self.new.rest.now ≤ length self.old.rest.now }
    {
        while let [b'\r', b'\n', b' ' | b'\t', tail @ ..] = self.rest {
            *self = Cursor {
                rest: tail,
                place: self.place + 1,
            };
        }
    }

    // Goes on to the start of the next line.
    pub fn skip_line(&mut self)
        ensures { view self.new ≡ (rest self.old).later }
    {
        loop {
            self.skip_folds();
            match self.rest {
                [b'\r', b'\n', tail @ ..] => {
                    let place = self.place + 1;
                    *self = Cursor { rest: tail, place };
                    return;
                }
                [_, tail @ ..] => self.rest = tail,
                [] => return,
            }
        }
    }

    // The line that begins here, if one does. Who looks at a line before the walk past it leaves with nothing walked.
    pub fn line(&self) -> Option<Cursor<'a>>
        ensures here { IfSome result (λ line. line ≡ self.now) }
        ensures first { MatchOption result (view self.now ≡ []) (λ line. view self.now ≡ line_of line ∷ (rest line).later) }
    {
        (!self.rest.is_empty()).then_some(*self)
    }

    // The line that begins here, if one does; goes on to the start of the next.
    pub fn next_line(&mut self) -> Option<Cursor<'a>>
        ensures here { IfSome result (λ line. line ≡ self.old) }
        ensures first { MatchOption result (view self.old ≡ []) (λ line. view self.old ≡ line_of line ∷ (rest line).later) }
        ensures later { MatchOption result (view self.new ≡ []) (λ line. view self.new ≡ (rest line).later) }
    {
        let line = self.line()?;
        self.skip_line();
        Some(line)
    }

    // The number of the physical line, from 1.
    pub fn place(&self) -> usize
        ensures { result ≡ (line_of self.now).place }
    {
        self.place
    }
}

// What is left of the line, without folds.
impl<'a> Bytes for Cursor<'a> {
    ghost left = { text };

    fn next(&mut self) -> Option<u8> {
        self.skip_folds();
        match self.rest {
            [b'\r', b'\n', ..] | [] => None,
            [b, tail @ ..] => {
                self.rest = tail;
                Some(*b)
            }
        }
    }
}
