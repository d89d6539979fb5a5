// The values of all parts.
ghost use Rattle.std.specs.Prelude.{◌≡◌, true, false, IfOk, IfErr};
ghost use Rattle.refusals.specs.declared.asked.RuleQuestion.TheVariants.{ValueForms};
ghost use Rattle.rrule.specs.Rule.{well_valued, values_of};

use super::Values;
use crate::named::RuleParts;
use crate::part_name::PartName;
use refusals::RuleQuestion;
use text::Bytes;

// What the parts say, or the fault that a value has another form than its name asks for.
pub fn read_values<B: Bytes>(parts: &RuleParts<B>) -> Result<Values, RuleQuestion>
    ensures ok { IfOk result (λ values. (well_valued parts.now ≡ true) × (values ≡ values_of parts.now)) }
    ensures err { IfErr result (λ fault. (well_valued parts.now ≡ false) × (fault ≡ ValueForms)) }
{
    Ok(Values {
        frequency: parts.said(PartName::Frequency)?,
        interval: parts.said(PartName::Interval)?,
        count: parts.said(PartName::Count)?,
        until: parts.said(PartName::Until)?,
        week_start: parts.said(PartName::WeekStart)?,
        scale: parts.said(PartName::Scale)?,
        skip: parts.said(PartName::Skip)?,
        months: parts.said(PartName::Months)?,
        month_days: parts.said(PartName::MonthDays)?,
        weekdays: parts.said(PartName::Weekdays)?,
    })
}
