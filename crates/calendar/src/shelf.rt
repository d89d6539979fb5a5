// Shelves of calendars.
ghost use Rattle.std.specs.Prelude.{◌≡◌, ◌≤◌, List, [], ◌∷◌, length, take};
ghost use Rattle.calendar.specs.Sheets.{Almanac, Dated};
ghost use Rattle.calendar.specs.Shelves.{almanac_at, Found, AllLawful};
ghost use Rattle.std.proofs.Common.{rules};
ghost use Rattle.calendar.specs.Places.{lawful_take};

use crate::{Calendar, Sheet};

// A shelf has at most so many calendars; those below are out of reach.
pub const PLACES: usize = 8;

// Calendars side by side. Its meaning is the list of their meanings, and it answers for the calendar at a place, which
// counts from 0. A place past the last has no name and answers no year. The calendars differ in type, so that a place
// stays a number beside its shelf.
pub trait Shelf {
    ghost held: { Self → List Almanac };

    fn count(&self) -> usize
        ensures { result ≡ length (held self.now) };

    fn name(&self, place: usize) -> &str
        ensures { result.now ≡ (almanac_at (held self.now) place).name };

    fn top(&self, place: usize) -> u8
        ensures { result ≡ (almanac_at (held self.now) place).top };

    fn states_leap(&self, place: usize, number: u8) -> bool
        ensures { result ≡ (almanac_at (held self.now) place).leaps number };

    fn sheet(&self, place: usize, year: u32) -> Sheet
        ensures { result ≡ (almanac_at (held self.now) place).sheet year };

    fn date(&self, place: usize, day: u32) -> Option<(u32, u8, u8)>
        ensures { Dated (almanac_at (held self.now) place) day result };

    // The place of the first calendar that bears the name, letter case ignored.
    fn find(&self, name: &[u8]) -> Option<usize>
        ensures { Found (held self.now) name.now result }
    {
        (0..self.count()).find(|&place| self.name(place).as_bytes().eq_ignore_ascii_case(name))
    }

    ghost lawful: { (s : Self) → AllLawful (held s) };

    ghost few: { (s : Self) → length (held s) ≤ 8 };
}

// A shelf with no calendar.
#[derive(Clone, Copy)]
pub struct Empty;

// A calendar beside a shorter shelf.
#[derive(Clone, Copy)]
pub struct On<C, R> {
    pub calendar: C,
    pub rest: R,
}

impl Shelf for Empty {
    ghost held = { λ _. [] };

    ghost lawful = { Prim.search rules };

    ghost few = { Prim.search rules };

    fn count(&self) -> usize {
        0
    }

    fn name(&self, _place: usize) -> &str {
        ""
    }

    fn top(&self, _place: usize) -> u8 {
        0
    }

    fn states_leap(&self, _place: usize, _number: u8) -> bool {
        false
    }

    fn sheet(&self, _place: usize, _year: u32) -> Sheet {
        Sheet::empty()
    }

    fn date(&self, _place: usize, _day: u32) -> Option<(u32, u8, u8)> {
        None
    }
}

// The five questions below are alike, yet each asks the first calendar or the rest itself: the calendars of a shelf differ
// in type, so that none can be handed out by its place, and a trait of visitors would be no plainer.
impl<C: Calendar, R: Shelf> Shelf for On<C, R> {
    ghost held = { λ s. C.Sheets.meaning s.calendar ∷ take 7 (R.Shelf.held s.rest) };

    ghost lawful = { λ s. (C.Sheets.lawful s.calendar, lawful_take (R.Shelf.held s.rest) 7 (R.Shelf.lawful s.rest)) };

    ghost few = { Prim.search rules };

    fn count(&self) -> usize {
        (self.rest.count() + 1).min(PLACES)
    }

    fn name(&self, place: usize) -> &str {
        if place == 0 {
            self.calendar.name()
        } else if place < PLACES {
            self.rest.name(place - 1)
        } else {
            ""
        }
    }

    fn top(&self, place: usize) -> u8 {
        if place == 0 {
            self.calendar.top()
        } else if place < PLACES {
            self.rest.top(place - 1)
        } else {
            0
        }
    }

    fn states_leap(&self, place: usize, number: u8) -> bool {
        if place == 0 {
            self.calendar.states_leap(number)
        } else {
            place < PLACES && self.rest.states_leap(place - 1, number)
        }
    }

    fn sheet(&self, place: usize, year: u32) -> Sheet {
        if place == 0 {
            self.calendar.sheet(year)
        } else if place < PLACES {
            self.rest.sheet(place - 1, year)
        } else {
            Sheet::empty()
        }
    }

    fn date(&self, place: usize, day: u32) -> Option<(u32, u8, u8)> {
        if place == 0 {
            self.calendar.date(day)
        } else if place < PLACES {
            self.rest.date(place - 1, day)
        } else {
            None
        }
    }
}
