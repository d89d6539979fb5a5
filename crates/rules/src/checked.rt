// A checked rule: what an RRULE says, once every question about its parts is answered.
ghost use Rattle.std.specs.Prelude.{◌≡◌, true};
ghost use Rattle.rules.specs.Parts.{fitting};

use crate::parts::Parts;

// The parts fit together: the lists are no longer than they may be, every number is within its bounds, and no part
// stands with a frequency that does not take it.
#[derive(Clone, Copy)]
pub struct Rule {
    pub parts: Parts,
    ghost checked: { fitting parts ≡ true },
}
