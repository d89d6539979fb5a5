// A rule as a source of days.
ghost use Rattle.std.specs.Prelude.{◌≡◌, ℕ, Bool, true};
ghost use Rattle.days.specs.Numbers.{in_range};
ghost use Rattle.rules.specs.Meaning.{gives};

use crate::search::Search;
use calendar::Calendar;
use rules::Rule;
use sources::Source;

// The days that a rule gives over a calendar, from DTSTART on. Any number may stand as `start`, and `ready` asks that
// it is in the range.
#[derive(Clone, Copy)]
pub struct RuleDays<'a, C> {
    pub calendar: &'a C,
    pub rule: &'a Rule,
    pub start: u32,
}

impl<'a, C: Calendar> Source for RuleDays<'a, C> {
    ghost days = { λ s. gives (C.Sheets.meaning s.calendar.now) s.rule.now s.start };

    ghost ready = { λ s. in_range s.start ≡ true };

    fn next(&self, from: u32) -> Option<u32> {
        let search = Search {
            calendar: self.calendar,
            rule: self.rule,
            start: self.start,
            date: self.calendar.date(self.start)?,
        };
        search.next_from(from.max(self.start))
    }
}
