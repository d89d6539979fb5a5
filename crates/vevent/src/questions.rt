// The questions on an event's own lines.
ghost use Rattle.std.specs.Prelude.{◌≡◌, [], ◌∷◌, IfOk, IfErr, Some, None};
ghost use Rattle.lines.specs.View.{text, line_of};
ghost use Rattle.vevent.specs.Kept.{start_of};
ghost use Rattle.vevent.specs.Questions.{first_place, second_place, sooner, date_of_line, lists_days, first_failing, first_too_many, starts, lone, one_start, start_date, start_in_range, one_rule, date_lists, few_dates, nothing_replaced, verdict, first_failed, asked};

use crate::event::{EventLines, NamedLines};
use crate::lists::{is_day_list, room_after};
use days::RangeDay;
use lines::{Cursor, is_date, value_of};
use refusals::EventQuestion;
use text::read_day;

// A question that an event fails, and the place of the line that fails it.
#[derive(Clone, Copy, Debug, PartialEq, Eq)]
pub struct EventFault {
    pub place: usize,
    pub question: EventQuestion,
}

// Where the first of an event's lines of a name stands.
fn first_place(mut lines: NamedLines) -> Option<usize>
    ensures { result ≡ first_place lines.entry }
{
    lines.next().map(|line| line.place())
}

// Where the second stands.
fn second_place(mut lines: NamedLines) -> Option<usize>
    ensures { result ≡ second_place lines.entry }
{
    lines.nth(1).map(|line| line.place())
}

// The earlier of two places. Called thrice: a function of two names and a closure is no plainer, as few_dates has two
// rooms besides.
fn earlier_place(one: Option<usize>, other: Option<usize>) -> Option<usize>
    ensures { result ≡ sooner one other }
{
    one.into_iter().chain(other).min()
}

// The day that a line names by VALUE=DATE and a real date.
pub(crate) fn date_of_line(line: Cursor) -> Option<u32>
    ensures { result ≡ date_of_line (text line.entry) }
{
    // As `then` and `and_then` this is no plainer: two closures in place of two branches.
    if is_date(line) {
        read_day(value_of(line))
    } else {
        None
    }
}

// Whether a line lists days by VALUE=DATE and real dates in the range.
fn lists_days(line: Cursor) -> bool
    ensures { result ≡ lists_days (text line.entry) }
{
    is_date(line) && is_day_list(value_of(line))
}

// Where the first line stands that does not list days.
fn first_failing(mut lines: NamedLines) -> Option<usize>
    ensures { result ≡ first_failing lists_days lines.entry }
{
    lines
        .find(|line| !lists_days(*line))
        .map(|line| line.place())
}

// Where the line stands that has the first date beyond `room`.
fn first_too_many(lines: NamedLines, room: usize) -> Option<usize>
    ensures { result ≡ first_too_many room lines.entry }
{
    // A walk that carries the room along: as `find` or `fold` the room would be a second value beside the place.
    let mut room = room;
    for line in lines {
        let Some(left) = room_after(value_of(line), room) else {
            return Some(line.place());
        };
        room = left;
    }
    None
}

// The line of the one DTSTART.
fn start_line<'a>(event: &EventLines<'a>) -> Result<Cursor<'a>, EventFault>
    ensures one { IfOk result (λ line. starts event.now ≡ line_of line ∷ []) }
    ensures failed { IfErr result (λ fault. first_failed asked event.now ≡ Some fault) }
{
    let mut starts = event.named(b"DTSTART");
    let first = starts.next().ok_or(EventFault {
        place: event.place(),
        question: EventQuestion::OneStart,
    })?;
    let second = starts.next().map(|line| line.place());
    unless(second, EventQuestion::OneStart)?;
    Ok(first)
}

// The day in the range that the one DTSTART names.
fn start_day(event: &EventLines) -> Result<RangeDay, EventFault>
    ensures one { IfOk result (λ _. one_start event.now ≡ None) }
    ensures dated { IfOk result (λ _. start_date event.now ≡ None) }
    ensures within { IfOk result (λ _. start_in_range event.now ≡ None) }
    ensures start { IfOk result (λ start. start_of event.now ≡ Some start) }
    ensures failed { IfErr result (λ fault. first_failed asked event.now ≡ Some fault) }
{
    let line = start_line(event)?;
    let place = line.place();
    let date = date_of_line(line).ok_or(EventFault {
        place,
        question: EventQuestion::StartDate,
    })?;
    RangeDay::new(date).ok_or(EventFault {
        place,
        question: EventQuestion::StartInRange,
    })
}

// Where the earliest RDATE or EXDATE line stands that does not list days.
fn date_lists(event: &EventLines) -> Option<usize>
    ensures { result ≡ date_lists event.now }
{
    earlier_place(
        first_failing(event.named(b"RDATE")),
        first_failing(event.named(b"EXDATE")),
    )
}

// Where the earlier of the lines stands that have the first of more than 16 RDATE or 32 EXDATE dates.
fn few_dates(event: &EventLines) -> Option<usize>
    ensures { result ≡ few_dates event.now }
{
    earlier_place(
        first_too_many(event.named(b"RDATE"), 16),
        first_too_many(event.named(b"EXDATE"), 32),
    )
}

// Where the earlier of the first RECURRENCE-ID and the first EXRULE stands.
fn nothing_replaced(event: &EventLines) -> Option<usize>
    ensures { result ≡ nothing_replaced event.now }
{
    earlier_place(
        first_place(event.named(b"RECURRENCE-ID")),
        first_place(event.named(b"EXRULE")),
    )
}

// Passes where a question fails at no place; else the fault at its place.
fn unless(failed: Option<usize>, question: EventQuestion) -> Result<(), EventFault>
    ensures { verdict result ≡ elim failed [ Some p ↦ Some (record { place = p; question = question }) | None ↦ None ] }
{
    failed.map_or(Ok(()), |place| Err(EventFault { place, question }))
}

// Asks the event every question: the first that it fails, or the day that it starts on.
pub fn check_event(event: &EventLines) -> Result<RangeDay, EventFault>
    ensures asked { verdict result ≡ first_failed asked event.now }
    ensures start { IfOk result (λ start. start_of event.now ≡ Some start) }
{
    let start = start_day(event)?;
    unless(second_place(event.named(b"RRULE")), EventQuestion::OneRule)?;
    unless(date_lists(event), EventQuestion::DateLists)?;
    unless(few_dates(event), EventQuestion::FewDates)?;
    unless(nothing_replaced(event), EventQuestion::NothingReplaced)?;
    Ok(start)
}
