// Rules over the calendar at a place of a shelf.
ghost use Rattle.std.specs.Prelude.{◌≡◌, Bool, ℕ};
ghost use Rattle.calendar.specs.Shelves.{almanac_at};
ghost use Rattle.sources.specs.Sets.{Found};
ghost use Rattle.rules.specs.Meaning.{gives};

use calendar::{Calendar, Empty, On, PLACES, Shelf};
use days::RangeDay;
use rule_days::RuleDays;
use rules::Rule;
use sources::Source;

// A shelf that answers for a rule over the calendar at a place. The calendars of a shelf differ in type, so none can be
// handed out, and the shelf itself answers. A place past the last gives no day.
pub trait RuleShelf: Shelf {
    // The least day at or after `from` that the rule gives. One lifetime, since `RuleDays` has one for both references.
    fn next_given<'r>(
        &'r self,
        place: usize,
        rule: &'r Rule,
        start: RangeDay,
        from: u32,
    ) -> Option<u32>
        ensures { Found (gives (almanac_at (Self.Shelf.held self.now) place) rule.now start) from result };
}

impl RuleShelf for Empty {
    fn next_given<'r>(
        &'r self,
        _place: usize,
        _rule: &'r Rule,
        _start: RangeDay,
        _from: u32,
    ) -> Option<u32> {
        None
    }
}

impl<C: Calendar, R: RuleShelf> RuleShelf for On<C, R> {
    fn next_given<'r>(
        &'r self,
        place: usize,
        rule: &'r Rule,
        start: RangeDay,
        from: u32,
    ) -> Option<u32> {
        // As the questions of `On` do, which a visitor of calendars would make no plainer.
        if place == 0 {
            RuleDays {
                calendar: &self.calendar,
                rule,
                start: start.day(),
            }
            .next(from)
        } else if place < PLACES {
            self.rest.next_given(place - 1, rule, start, from)
        } else {
            None
        }
    }
}

// The days that a rule gives over the calendar at a place, from DTSTART on.
#[derive(Clone, Copy)]
pub struct ShelfRule<'a, S> {
    pub shelf: &'a S,
    pub place: usize,
    pub rule: &'a Rule,
    pub start: RangeDay,
}

impl<'a, S: RuleShelf> Source for ShelfRule<'a, S> {
    ghost days = { λ s. gives (almanac_at (S.Shelf.held s.shelf.now) s.place) s.rule.now s.start };

    ghost ready = { λ _. Unit {0} };

    fn next(&self, from: u32) -> Option<u32> {
        self.shelf
            .next_given(self.place, self.rule, self.start, from)
    }
}
