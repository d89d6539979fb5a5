// The lines that are still to come, and the heads that stand for them in the queue.
ghost use Rattle.std.specs.Prelude.{◌≡◌, ◌+◌, ◌<◌, ◌≤◌, ℕ, IfSome, length, take, drop};
ghost use Rattle.std.specs.List.{All};
ghost use Rattle.series.specs.Record.{Ready};
ghost use Rattle.owed.specs.Lines.{precedes, Before};
ghost use Rattle.owed.specs.Owed.{series_gives};
ghost use Rattle.heads.specs.Heads.{sets_of, Soonest, Heads, behind, mark_after, FirstDrawn};

use events::RuleShelf;
use owed::Line;
use queue::{pop, push};
use series::{Series, next_day};

// The lines of these series, which are numbered from 1, that are after the mark and not after the last day.
#[derive(Drop)]
pub struct Coming<'a, S> {
    pub shelf: &'a S,
    pub series: &'a [Series],
    pub mark: Line,
    pub last: u32,
}

// What a draw takes, and how many heads there are then.
#[derive(Clone, Copy)]
pub struct Drawn {
    pub line: Option<Line>,
    pub queued: usize,
}

impl<'a, S: RuleShelf> Coming<'a, S> {
    // The first line of the series of this number, if it has one. Whatever the series, the line is after the mark, so that
    // a draw comes to its end.
    fn soonest(&self, number: u16) -> Option<Line>
        ensures soonest { All (Ready (S.Shelf.held self.now.shelf.now)) self.now.series.now → 1 ≤ number → number ≤ length self.now.series.now → Soonest (series_gives (sets_of (S.Shelf.held self.now.shelf.now) self.now.series.now) number) number self.now.mark self.now.last result }
        ensures after { IfSome result (λ line. Before self.now.mark line) }
    {
        let series = self.series.get(usize::from(number).checked_sub(1)?)?;
        let from = if self.mark.series < number {
            self.mark.day
        } else {
            self.mark.day.checked_add(1)?
        };
        let day = next_day(self.shelf, series, from)?;
        if day < from || self.last < day {
            return None;
        }
        Some(Line {
            day,
            series: number,
        })
    }

    // Whether the line is after the mark.
    fn awaits(&self, line: Line) -> bool
        ensures { result ≡ precedes self.now.mark line }
    {
        self.mark < line
    }

    // Puts the first line of a series that has no head into the queue, if it has one. Answers how many heads there are then.
    pub fn refill(&self, queue: &mut [Line], queued: usize, number: u16) -> usize
        requires { queued < length queue.old }
        ensures heads { (first : ℕ) → All (Ready (S.Shelf.held self.now.shelf.now)) self.now.series.now → 1 ≤ number → number ≤ length self.now.series.now
            → Heads first self.now.last (sets_of (S.Shelf.held self.now.shelf.now) self.now.series.now) self.now.mark queue.old queued number
            → Heads first self.now.last (sets_of (S.Shelf.held self.now.shelf.now) self.now.series.now) self.now.mark queue.new result 0 }
        ensures behind { behind self.now.mark (take result queue.new) ≡ behind self.now.mark (take queued queue.old) }
        ensures rest { (result ≤ queued + 1) × (drop (queued + 1) queue.new ≡ drop (queued + 1) queue.old) }
    {
        let Some(line) = self.soonest(number) else {
            return queued;
        };
        push(queue, queued, line);
        queued + 1
    }

    // Takes the first line, if there is one, and puts the next one of its series in its place. Heads that are not after the
    // mark, as a seek leaves them, make way for the next lines of their series.
    pub fn draw(&self, queue: &mut [Line], queued: usize) -> Drawn
        requires { queued ≤ length queue.old }
        ensures heads { (first : ℕ) → All (Ready (S.Shelf.held self.now.shelf.now)) self.now.series.now
            → Heads first self.now.last (sets_of (S.Shelf.held self.now.shelf.now) self.now.series.now) self.now.mark queue.old queued 0
            → Heads first self.now.last (sets_of (S.Shelf.held self.now.shelf.now) self.now.series.now) (mark_after self.now.mark result.line) queue.new result.queued 0 }
        ensures drawn { (first : ℕ) → All (Ready (S.Shelf.held self.now.shelf.now)) self.now.series.now
            → Heads first self.now.last (sets_of (S.Shelf.held self.now.shelf.now) self.now.series.now) self.now.mark queue.old queued 0
            → FirstDrawn first self.now.last (sets_of (S.Shelf.held self.now.shelf.now) self.now.series.now) self.now.mark result.line }
        ensures rest { (result.queued ≤ queued) × (drop queued queue.new ≡ drop queued queue.old) }
    {
        let mut left = queued;
        while let Some(head) = pop(queue, left) {
            left -= 1;
            if self.awaits(head) {
                let onward = Coming {
                    mark: head,
                    ..*self
                };
                return Drawn {
                    line: Some(head),
                    queued: onward.refill(queue, left, head.series),
                };
            }
            left = self.refill(queue, left, head.series);
        }
        Drawn {
            line: None,
            queued: left,
        }
    }
}
