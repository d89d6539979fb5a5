// The days of an event: a rule's days within a limit and added days, without excluded days.
ghost use Rattle.std.specs.Prelude.{◌≡◌};
ghost use Rattle.sources.specs.Events.{limited, event_days, limit_in, Kept};

use crate::Source;
use crate::bottom::Listed;
use crate::count::{Count, last_day};
use crate::layers::{Except, Union, Until};

// Where a rule ends, as a file says it.
#[derive(Clone, Copy)]
pub enum Limit {
    Endless,
    // with this day, which is included
    Until(u32),
    // after so many days
    Count(u16),
}

// Where a rule ends, with what is kept of it: for a count, the last of the counted days, so that no question walks to
// it again. A type beside Limit, which a file says: one for both would say in a file what is kept of nothing.
#[derive(Clone, Copy)]
pub enum Ending {
    Endless,
    Until(u32),
    Count { n: u16, last: Option<u32> },
}

impl Ending {
    // Walks over the days of a count once, to the last of them.
    pub fn of<R: Source>(rule: &R, limit: Limit) -> Ending
        requires { R.Source.ready rule.now }
        ensures limit { limit_in result ≡ limit }
        ensures kept { Kept (R.Source.days rule.now) result }
    {
        match limit {
            Limit::Endless => Ending::Endless,
            Limit::Until(day) => Ending::Until(day),
            Limit::Count(n) => Ending::Count {
                n,
                last: last_day(rule, n),
            },
        }
    }
}

impl From<Ending> for Limit {
    ghost from_gives = { λ ending limit. limit ≡ limit_in ending };

    fn from(ending: Ending) -> Limit {
        match ending {
            Ending::Endless => Limit::Endless,
            Ending::Until(day) => Limit::Until(day),
            Ending::Count { n, .. } => Limit::Count(n),
        }
    }
}

// The days of a rule within its limit.
#[derive(Clone, Copy)]
struct Ended<'a, R> {
    rule: &'a R,
    ending: Ending,
}

impl<'a, R: Source> Source for Ended<'a, R> {
    ghost days = { λ s. limited (R.Source.days s.rule.now) (limit_in s.ending) };

    ghost ready = { λ s. R.Source.ready s.rule.now × Kept (R.Source.days s.rule.now) s.ending };

    fn next(&self, from: u32) -> Option<u32> {
        let inner = self.rule;
        match self.ending {
            Ending::Endless => inner.next(from),
            Ending::Until(last) => Until { inner, last }.next(from),
            Ending::Count { n, last } => Count::with_last(inner, n, last).next(from),
        }
    }
}

// The days that an event adds to those of its rule, and those that it excludes.
#[derive(Clone, Copy)]
pub struct Amendments<'a> {
    pub added: &'a [u32],
    pub excluded: &'a [u32],
}

// An event: its rule, where the rule ends, and its amendments.
#[derive(Clone, Copy)]
pub struct Event<'a, R> {
    pub rule: R,
    pub ending: Ending,
    pub amendments: Amendments<'a>,
}

impl<'a, R: Source> Source for Event<'a, R> {
    ghost days = { λ e. event_days (R.Source.days e.rule) (limit_in e.ending) e.amendments.added.now e.amendments.excluded.now };

    ghost ready = { λ e. R.Source.ready e.rule × Kept (R.Source.days e.rule) e.ending };

    fn next(&self, from: u32) -> Option<u32> {
        let Amendments { added, excluded } = self.amendments;
        let ended = Ended {
            rule: &self.rule,
            ending: self.ending,
        };
        let added = Union {
            one: ended,
            other: Listed { days: added },
        };
        Except {
            inner: added,
            days: excluded,
        }
        .next(from)
    }
}
