// The questions asked in their order.
ghost use Rattle.std.specs.Prelude.{◌≡◌};
ghost use Rattle.rrule.specs.Questions.{rule_read};
ghost use Rattle.rrule.specs.Result.{told};

use super::RuleText;
use crate::named::RuleParts;
use crate::values::{WithFrequency, read_values};
use refusals::RuleQuestion;
use text::Bytes;

// The rule that the value of an RRULE says, or the first question that it fails.
pub fn read_rule<B: Bytes>(value: B) -> Result<RuleText, RuleQuestion>
    ensures { told result ≡ rule_read (B.Bytes.left value) }
{
    let values = read_values(&RuleParts::of(value)?)?;
    let frequency = values.frequency.ok_or(RuleQuestion::HasFrequency)?;
    let asked = WithFrequency { values, frequency };
    if !asked.one_limit() {
        return Err(RuleQuestion::OneLimit);
    }
    if !asked.skip_with_scale() {
        return Err(RuleQuestion::ScaledSkip);
    }
    if !asked.month_days_allowed() {
        return Err(RuleQuestion::NoMonthDaysInWeeks);
    }
    if !asked.numbers_allowed() {
        return Err(RuleQuestion::NumberedWeekdays);
    }
    Ok(asked.rule_text())
}
