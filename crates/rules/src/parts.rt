// The parts of a rule.
ghost use Rattle.std.specs.Prelude.{◌≡◌, None};
ghost use Rattle.days.specs.declared.weekday.Weekday.TheVariants.{Monday};

use calendar::MonthCode;
use days::weekday::Weekday;
use short_lists::{Blank, ShortList};

// FREQ.
#[derive(Clone, Copy)]
pub enum Frequency {
    Yearly,
    Monthly,
    Weekly,
    Daily,
}

// SKIP: what becomes of a month or a day that is not there.
#[derive(Clone, Copy)]
pub enum Skip {
    Omit,
    Backward,
    Forward,
}

// A number counted from the start, as 2, or from the end, as -1.
#[derive(Clone, Copy)]
pub enum Position {
    FromStart(u8),
    FromEnd(u8),
}

impl Blank for Position {
    ghost use Rattle.rules.specs.declared.parts.Position.TheVariants.{FromStart};

    ghost blank = { FromStart 0 };

    fn blank() -> Position {
        Position::FromStart(0)
    }
}

// A weekday, and which one of a stretch of days: MO is every Monday, 2MO the second, -1MO the last.
#[derive(Clone, Copy)]
pub struct ByDay {
    pub weekday: Weekday,
    pub position: Option<Position>,
}

impl Blank for ByDay {
    ghost blank = { record { weekday = Monday; position = None } };

    fn blank() -> ByDay {
        ByDay {
            weekday: Weekday::Monday,
            position: None,
        }
    }
}

// BYMONTH.
pub type Months = ShortList<MonthCode, 16>;

// BYMONTHDAY.
pub type MonthDays = ShortList<Position, 62>;

// BYDAY.
pub type Weekdays = ShortList<ByDay, 16>;

// What an RRULE says, before any question about its parts is answered.
#[derive(Clone, Copy)]
pub struct Parts {
    pub frequency: Frequency,
    pub interval: u16,
    pub week_start: Weekday,
    pub skip: Skip,
    pub months: Months,
    pub month_days: MonthDays,
    pub weekdays: Weekdays,
}
