// Days of the range.
use crate::in_range;
use std::marker::Model;

// A day of the range. Contracts see its number.
#[derive(Clone, Copy)]
pub struct RangeDay {
    day: u32,
}

impl Model for RangeDay {
    ghost use Rattle.std.specs.Prelude.{◌≡◌, ℕ, true};
    ghost use Rattle.days.specs.Numbers.{in_range};

    ghost Value = { ℕ };

    ghost view = { λ d. d.day };

    ghost invariant = { λ d. in_range d.day ≡ true };

    ghost inverse = { λ day. record { day = day } };
}

impl RangeDay {
    ghost use Rattle.std.specs.Prelude.{◌≡◌, true};
    ghost use Rattle.std.specs.Bool.{then_some};
    ghost use Rattle.days.specs.Numbers.{in_range};

    // The day of this number, if it is in the range.
    pub fn new(day: u32) -> Option<RangeDay>
        ensures { result ≡ then_some (in_range day) day }
    {
        // By `then`, the closure would need a clause that tells it that the day is in the range.
        if in_range(day) {
            Some(RangeDay { day })
        } else {
            None
        }
    }

    // Its number, which is in the range.
    pub fn day(self) -> u32
        ensures day { result ≡ self }
        ensures ranged { in_range result ≡ true }
    {
        self.day
    }
}
