// The questions in words.
ghost use Rattle.std.specs.Prelude.{Some};
ghost use Rattle.refusals.specs.Words.{file_words, plan_words, event_words, rule_words, calendar_words, words};

use crate::asked::{
    CalendarQuestion, EventQuestion, Failed, FileQuestion, PlanQuestion, RuleQuestion,
};
use std::fmt;

impl fmt::Display for FileQuestion {
    ghost output = { λ question. Some (file_words question) };

    fn fmt<W: fmt::Write>(&self, f: &mut fmt::Formatter<W>) -> fmt::Result {
        match self {
            FileQuestion::Size => write!(f, "has it at most 60,000 bytes?"),
            FileQuestion::LineEnds => write!(
                f,
                "has it lines, each ending in CR LF, with no other CR or LF?"
            ),
            FileQuestion::LineForms => write!(
                f,
                "is each line a name, parameters each begun by a semicolon, and a colon outside quotes?"
            ),
            FileQuestion::Nesting => write!(
                f,
                "is it one VCALENDAR, each END matching the innermost BEGIN, at most eight levels deep?"
            ),
        }
    }
}

impl fmt::Display for PlanQuestion {
    ghost output = { λ question. Some (plan_words question) };

    fn fmt<W: fmt::Write>(&self, f: &mut fmt::Formatter<W>) -> fmt::Result {
        match self {
            PlanQuestion::FullTables => write!(
                f,
                "has each table all places in use, and the queue one for each series?"
            ),
            PlanQuestion::WindowInRange => write!(f, "are both days from 1900 to 2199?"),
            PlanQuestion::WindowInOrder => write!(f, "is the first day not after the last?"),
            PlanQuestion::FewFiles => write!(f, "are fewer than 999 files accepted?"),
            PlanQuestion::RoomForSeries => write!(
                f,
                "have series and queue as many free places as the file has events?"
            ),
            PlanQuestion::RoomForFaults => write!(
                f,
                "have the faults as many free places as the file has events?"
            ),
            PlanQuestion::DayInWindow => write!(f, "is the day in the window?"),
            PlanQuestion::DayNotPassed => write!(f, "is the day not before the mark's?"),
            PlanQuestion::RoomForReport => write!(
                f,
                "has the text buffer 19 bytes for each fault?"
            ),
        }
    }
}

impl fmt::Display for EventQuestion {
    ghost output = { λ question. Some (event_words question) };

    fn fmt<W: fmt::Write>(&self, f: &mut fmt::Formatter<W>) -> fmt::Result {
        match self {
            EventQuestion::OneStart => write!(f, "is there just one DTSTART?"),
            EventQuestion::StartDate => write!(f, "has DTSTART VALUE=DATE and a real date?"),
            EventQuestion::StartInRange => write!(f, "is DTSTART from 1900 to 2199?"),
            EventQuestion::OneRule => write!(f, "is there at most one RRULE?"),
            EventQuestion::DateLists => write!(
                f,
                "has each RDATE and EXDATE VALUE=DATE and real dates from 1900 to 2199 between commas?"
            ),
            EventQuestion::FewDates => write!(f, "are there at most 16 RDATE and 32 EXDATE dates?"),
            EventQuestion::NothingReplaced => write!(f, "is there no RECURRENCE-ID and no EXRULE?"),
        }
    }
}

impl fmt::Display for RuleQuestion {
    ghost output = { λ question. Some (rule_words question) };

    fn fmt<W: fmt::Write>(&self, f: &mut fmt::Formatter<W>) -> fmt::Result {
        match self {
            RuleQuestion::NamedParts => write!(
                f,
                "is RRULE NAME=VALUE parts between semicolons, of known names, none twice?"
            ),
            RuleQuestion::ValueForms => write!(
                f,
                "has each part of RRULE the form that its name asks for?"
            ),
            RuleQuestion::HasFrequency => write!(f, "has RRULE a FREQ?"),
            RuleQuestion::OneLimit => write!(f, "has RRULE not both COUNT and UNTIL?"),
            RuleQuestion::ScaledSkip => write!(f, "has RRULE SKIP only with RSCALE?"),
            RuleQuestion::NoMonthDaysInWeeks => write!(f, "has RRULE no BYMONTHDAY with WEEKLY?"),
            RuleQuestion::NumberedWeekdays => write!(
                f,
                "has RRULE numbers in BYDAY only with MONTHLY or YEARLY and without BYMONTHDAY?"
            ),
        }
    }
}

impl fmt::Display for CalendarQuestion {
    ghost output = { λ question. Some (calendar_words question) };

    fn fmt<W: fmt::Write>(&self, f: &mut fmt::Formatter<W>) -> fmt::Result {
        match self {
            CalendarQuestion::OnShelf => write!(f, "is the calendar on the shelf?"),
            CalendarQuestion::KnownMonths => write!(f, "has the calendar the months of BYMONTH?"),
            CalendarQuestion::StartIsFirst => write!(
                f,
                "is DTSTART the first day that the rule gives, and not after UNTIL?"
            ),
        }
    }
}

impl fmt::Display for Failed {
    ghost output = { λ failed. Some (words failed) };

    fn fmt<W: fmt::Write>(&self, f: &mut fmt::Formatter<W>) -> fmt::Result {
        match self {
            Failed::Event(question) => write!(f, "{question}"),
            Failed::Rule(question) => write!(f, "{question}"),
            Failed::Calendar(question) => write!(f, "{question}"),
        }
    }
}
