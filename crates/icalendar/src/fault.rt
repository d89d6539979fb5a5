// The first question that an event fails.
use refusals::Failed;
use vevent::EventFault;

// The first question that an event fails, and the place of the line that fails it. A type of its own beside
// EventFault: no crate may write `From` between two instances of another's generic type, and `?` would need a `map_err`
// in its place.
#[derive(Clone, Copy, Debug, PartialEq, Eq)]
pub struct Fault {
    pub place: usize,
    pub failed: Failed,
}

impl From<EventFault> for Fault {
    ghost use Rattle.std.specs.Prelude.{◌≡◌};
    ghost use Rattle.icalendar.specs.Verdicts.{of_event};

    ghost from_gives = { λ fault result. result ≡ of_event fault };

    fn from(fault: EventFault) -> Fault {
        let EventFault { place, question } = fault;
        Fault {
            place,
            failed: Failed::Event(question),
        }
    }
}
