// The rule that the parts say together.
ghost use Rattle.std.specs.Prelude.{◌≡◌, true};
ghost use Rattle.rules.specs.Parts.{fitting};
ghost use Rattle.rrule.specs.Result.{said_by};
ghost use Rattle.rrule.specs.Rule.{rule_of, parts_said};

use super::RuleText;
use crate::values::{WithFrequency, interval_or_one, limit};
use days::weekday::Weekday;
use rules::{MonthDays, Months, Parts, Rule, Skip, Weekdays};

impl WithFrequency {
    // The rule of values that pass every question. `new`, not a `Default`, says that a missing list is empty.
    pub fn rule_text(&self) -> RuleText
        requires { fitting (parts_said self.now.frequency self.now.values) ≡ true }
        ensures { said_by result ≡ rule_of self.now.values }
    {
        let values = &self.values;
        let parts = Parts {
            frequency: self.frequency,
            interval: interval_or_one(values.interval),
            week_start: values.week_start.unwrap_or(Weekday::Monday),
            skip: values.skip.unwrap_or(Skip::Omit),
            months: values.months.unwrap_or(Months::new()),
            month_days: values.month_days.unwrap_or(MonthDays::new()),
            weekdays: values.weekdays.unwrap_or(Weekdays::new()),
        };
        RuleText {
            rule: Rule { parts },
            limit: limit(values.count, values.until),
            scale: values.scale,
        }
    }
}
