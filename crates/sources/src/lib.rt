// Sets of days that answer which of their days comes next: bottom sources, layers over any source, and the days of
// events.
#![tactic(auto)]

ghost use Rattle.std.specs.Prelude.{ℕ, Bool};
ghost use Rattle.sources.specs.Sets.{Found};

mod bottom;
mod count;
mod events;
mod layers;

pub use bottom::{Listed, Single};
pub use count::{Count, count_is_until, last_day};
pub use events::{Amendments, Ending, Event, Limit};
pub use layers::{Except, Union, Until};

// A set of days in the range that answers which of them comes next. What a value keeps worked out has to be right,
// which `ready` says, before it is asked. It is no invariant, since what is kept may come from outside, untested.
pub trait Source {
    ghost days: { Self → ℕ → Bool };

    ghost ready: { Self → Type 0 };

    // The least day of the set at or after `from`.
    fn next(&self, from: u32) -> Option<u32>
        requires { ready self.now }
        ensures { Found (days self.now) from result };
}
