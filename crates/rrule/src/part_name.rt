// The names of a rule's parts.
ghost use Rattle.rrule.specs.Named.{part_word, part_names};

use rule_values::Word;

#[derive(Clone, Copy)]
pub enum PartName {
    Frequency,
    Interval,
    Count,
    Until,
    WeekStart,
    Scale,
    Skip,
    Months,
    MonthDays,
    Weekdays,
}

impl Word for PartName {
    ghost spelling = { part_word };

    ghost values = { part_names };

    fn word(self) -> &'static str {
        match self {
            PartName::Frequency => "FREQ",
            PartName::Interval => "INTERVAL",
            PartName::Count => "COUNT",
            PartName::Until => "UNTIL",
            PartName::WeekStart => "WKST",
            PartName::Scale => "RSCALE",
            PartName::Skip => "SKIP",
            PartName::Months => "BYMONTH",
            PartName::MonthDays => "BYMONTHDAY",
            PartName::Weekdays => "BYDAY",
        }
    }

    fn all() -> &'static [PartName] {
        &[
            PartName::Frequency,
            PartName::Interval,
            PartName::Count,
            PartName::Until,
            PartName::WeekStart,
            PartName::Scale,
            PartName::Skip,
            PartName::Months,
            PartName::MonthDays,
            PartName::Weekdays,
        ]
    }
}
