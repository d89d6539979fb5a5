// The shelf of the program.
use calendar::{Empty, On};
use calendars::coptic::Coptic;
use calendars::gregorian::Gregorian;
use calendars::hebrew::Hebrew;
use calendars::islamic::IslamicCivil;

// The calendars that the unit knows, the office calendar first.
pub(crate) const SHELF: On<Gregorian, On<Coptic, On<IslamicCivil, On<Hebrew, Empty>>>> = On {
    calendar: Gregorian,
    rest: On {
        calendar: Coptic,
        rest: On {
            calendar: IslamicCivil,
            rest: On {
                calendar: Hebrew,
                rest: Empty,
            },
        },
    },
};
