// What is wrong with an event of a file, and what to do about it.
ghost use Rattle.std.specs.Prelude.{◌≡◌, IfOk, string_bytes};
ghost use Rattle.answers.specs.Advice.{event_advice, rule_advice, calendar_advice, advice, fault_words, advice_text};

use refusals::{CalendarQuestion, EventQuestion, Failed, RuleQuestion};
use report::FaultEntry;
use std::alloc::{AllocError, Global};

fn event_advice(question: EventQuestion) -> &'static str
    ensures { result.now ≡ event_advice question }
{
    match question {
        EventQuestion::OneStart => "Give the event just one DTSTART line.",
        EventQuestion::StartDate => "Write DTSTART;VALUE=DATE: and the eight digits of a date.",
        EventQuestion::StartInRange => "Give DTSTART a date from 1900 to 2199.",
        EventQuestion::OneRule => "Keep one RRULE line and delete the others.",
        EventQuestion::DateLists =>
            "Write ;VALUE=DATE: and dates from 1900 to 2199 with commas between them.",
        EventQuestion::FewDates => "Keep at most 16 RDATE and 32 EXDATE dates.",
        EventQuestion::NothingReplaced =>
            "Delete RECURRENCE-ID and EXRULE, and use EXDATE and RDATE.",
    }
}

fn rule_advice(question: RuleQuestion) -> &'static str
    ensures { result.now ≡ rule_advice question }
{
    match question {
        RuleQuestion::NamedParts =>
            "Write RRULE as NAME=VALUE parts between semicolons, each known name once.",
        RuleQuestion::ValueForms =>
            "Correct the part of RRULE whose value its name does not allow.",
        RuleQuestion::HasFrequency => "Add FREQ to RRULE, as FREQ=WEEKLY.",
        RuleQuestion::OneLimit => "Delete COUNT or UNTIL.",
        RuleQuestion::ScaledSkip => "Delete SKIP, or name a calendar with RSCALE.",
        RuleQuestion::NoMonthDaysInWeeks => "Delete BYMONTHDAY, or write FREQ=MONTHLY.",
        RuleQuestion::NumberedWeekdays =>
            "Delete the numbers in BYDAY, or write FREQ=MONTHLY without BYMONTHDAY.",
    }
}

fn calendar_advice(question: CalendarQuestion) -> &'static str
    ensures { result.now ≡ calendar_advice question }
{
    match question {
        CalendarQuestion::OnShelf => "Name a calendar of the shelf in RSCALE.",
        CalendarQuestion::KnownMonths =>
            "Delete the months in BYMONTH that the calendar does not have.",
        CalendarQuestion::StartIsFirst =>
            "Make DTSTART the first day of the rule, not after UNTIL.",
    }
}

// What to do about an event that fails a question.
fn advice(failed: Failed) -> &'static str
    ensures { result.now ≡ advice failed }
{
    match failed {
        Failed::Event(question) => event_advice(question),
        Failed::Rule(question) => rule_advice(question),
        Failed::Calendar(question) => calendar_advice(question),
    }
}

// Where a fault is, the question in words and what to do about it.
fn fault_words(heap: Global, entry: &FaultEntry) -> Result<String, AllocError>
    ensures { IfOk result (λ text. string_bytes text ≡ fault_words entry.now) }
{
    let place = entry.fault.place;
    let event = entry.event;
    let failed = entry.fault.failed;
    let advice = advice(failed);
    format!(in heap; " line {place}, event {event}: {failed} {advice}\n")
}

// The line of a fault in the list of a season, after the name of its file.
pub fn advice_text(heap: Global, name: &[u8], entry: &FaultEntry) -> Result<Vec<u8>, AllocError>
    ensures { IfOk result (λ text. text.items ≡ advice_text name.now entry.now) }
{
    let mut text = Vec::new(heap);
    text.extend_from_slice(name)?;
    text.extend_from_slice(fault_words(heap, entry)?.as_bytes())?;
    Ok(text)
}
