// The questions about what the parts of a rule say together.
ghost use Rattle.std.specs.Prelude.{◌≡◌};
ghost use Rattle.rrule.specs.Questions.{one_limit, skip_with_scale, month_days_allowed, numbers_allowed};

use crate::values::WithFrequency;
use rules::{Weekdays, some_numbered, takes_month_days, takes_numbers};

impl WithFrequency {
    // Whether COUNT and UNTIL are not both there.
    pub fn one_limit(&self) -> bool
        ensures { result ≡ one_limit self.now.values }
    {
        self.values.count.is_none() || self.values.until.is_none()
    }

    // Whether SKIP stands only with RSCALE.
    pub fn skip_with_scale(&self) -> bool
        ensures { result ≡ skip_with_scale self.now.values }
    {
        self.values.skip.is_none() || self.values.scale.is_some()
    }

    // Whether BYMONTHDAY stands only with a frequency that takes it.
    pub fn month_days_allowed(&self) -> bool
        ensures { result ≡ month_days_allowed self.now.values }
    {
        self.values.month_days.is_none() || takes_month_days(self.frequency)
    }

    // Whether numbered weekdays stand only with a frequency that takes them, and without BYMONTHDAY.
    // `new`, not a `Default`, says that a missing list is empty.
    pub fn numbers_allowed(&self) -> bool
        ensures { result ≡ numbers_allowed self.now.values }
    {
        let weekdays = self.values.weekdays.unwrap_or(Weekdays::new());
        !some_numbered(weekdays.items())
            || takes_numbers(self.frequency) && self.values.month_days.is_none()
    }
}
