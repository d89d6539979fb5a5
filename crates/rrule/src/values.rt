// What the parts of a rule say.
ghost use Rattle.std.specs.Prelude.{◌≡◌, Some};

use days::weekday::Weekday;
use rule_values::{LastDay, Number, ScaleName};
use rules::{Frequency, MonthDays, Months, Skip, Weekdays};

mod all;
mod defaults;

pub use all::read_values;
pub use defaults::{interval_or_one, limit};

// What the parts of a rule say, each if it is there.
// Beside Parts of crate rules, since one struct for both would take a type parameter for each field.
#[derive(Clone, Copy)]
pub struct Values {
    pub frequency: Option<Frequency>,
    pub interval: Option<Number<999>>,
    pub count: Option<Number<9999>>,
    pub until: Option<LastDay>,
    pub week_start: Option<Weekday>,
    pub scale: Option<ScaleName>,
    pub skip: Option<Skip>,
    pub months: Option<Months>,
    pub month_days: Option<MonthDays>,
    pub weekdays: Option<Weekdays>,
}

// Values that say a frequency, with it.
#[derive(Clone, Copy)]
pub struct WithFrequency {
    pub values: Values,
    pub frequency: Frequency,
    ghost said: { values.frequency ≡ Some frequency },
}
