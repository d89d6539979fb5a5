// The values of the parts.
ghost use Rattle.std.specs.Prelude.{◌≡◌, ◌≤◌, ℕ};

use short_lists::ShortList;
use std::marker::Model;

mod read;

// A number from 1 to MOST. Contracts see the number.
#[derive(Clone, Copy)]
pub struct Number<const MOST: u16> {
    value: u16,
}

impl<const MOST: u16> Model for Number<MOST> {
    ghost Value = { ℕ };

    ghost view = { λ n. n.value };

    ghost invariant = { λ n. (1 ≤ n.value) × (n.value ≤ MOST) };

    ghost inverse = { λ n. record { value = n } };
}

impl<const MOST: u16> Number<MOST> {
    // The number, which is within its bounds.
    pub fn value(self) -> u16
        ensures value { result ≡ self.entry }
        ensures positive { 1 ≤ result }
        ensures bounded { result ≤ MOST }
    {
        self.value
    }
}

// The last day that a rule may give.
#[derive(Clone, Copy)]
pub struct LastDay {
    pub day: u32,
}

// The name of a calendar as it is written in RSCALE.
#[derive(Clone, Copy)]
pub struct ScaleName {
    pub name: ShortList<u8, 24>,
}

impl ScaleName {
    // The bytes of the name.
    pub fn bytes(&self) -> &[u8]
        ensures { result.now ≡ self.now.name }
    {
        self.name.items()
    }
}
