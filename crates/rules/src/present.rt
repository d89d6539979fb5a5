// Which parts a rule has.
ghost use Rattle.std.specs.Prelude.{◌≡◌, not};
ghost use Rattle.rules.specs.Parts.{no_items};
ghost use Rattle.rules.specs.Meaning.{by_month, by_month_day, by_day};

use crate::Rule;

// One line for each part: a function for all of them would be no plainer.
impl Rule {
    pub fn has_months(&self) -> bool
        ensures { result ≡ not (no_items (by_month self.now)) }
    {
        !self.parts.months.is_empty()
    }

    pub fn has_month_days(&self) -> bool
        ensures { result ≡ not (no_items (by_month_day self.now)) }
    {
        !self.parts.month_days.is_empty()
    }

    pub fn has_weekdays(&self) -> bool
        ensures { result ≡ not (no_items (by_day self.now)) }
    {
        !self.parts.weekdays.is_empty()
    }
}
