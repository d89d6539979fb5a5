// Sources that stand on no other: one day, and listed days.
ghost use Rattle.sources.specs.Sets.{single, listed};

use crate::Source;
use days::in_range;

// One day.
#[derive(Clone, Copy)]
pub struct Single {
    pub day: u32,
}

impl Source for Single {
    ghost days = { λ s. single s.day };

    ghost ready = { λ _. Unit {0} };

    fn next(&self, from: u32) -> Option<u32> {
        (from <= self.day && in_range(self.day)).then_some(self.day)
    }
}

// Listed days, in any order; a day may stand twice.
#[derive(Clone, Copy)]
pub struct Listed<'a> {
    pub days: &'a [u32],
}

impl<'a> Source for Listed<'a> {
    ghost days = { λ s. listed s.days.now };

    ghost ready = { λ _. Unit {0} };

    fn next(&self, from: u32) -> Option<u32> {
        self.days
            .iter()
            .copied()
            .filter(|&day| from <= day && in_range(day))
            .min()
    }
}
