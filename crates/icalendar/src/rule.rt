// The rule of an event, over the shelf's calendar that it names.
ghost use Rattle.std.specs.Prelude.{◌≡◌};
ghost use Rattle.calendar.specs.Shelves.{almanac_at};
ghost use Rattle.rules.specs.Parts.{each_of};
ghost use Rattle.rules.specs.Making.{parts_give};
ghost use Rattle.rrule.specs.Result.{said_by};
ghost use Rattle.icalendar.specs.Verdicts.{name_asked, place_named, code_known, within_until, on_calendar, Rules};

use calendar::{MonthCode, Shelf};
use days::RangeDay;
use events::{RuleShelf, ShelfRule};
use refusals::CalendarQuestion;
use rrule::RuleText;
use rule_values::ScaleName;
use series::Recurrence;
use sources::{Ending, Limit, Source};

// The place of the calendar that a rule asks for.
fn calendar_asked<S: Shelf>(shelf: &S, scale: Option<ScaleName>) -> Option<usize>
    ensures { result ≡ place_named (S.Shelf.held shelf.now) (name_asked scale) }
{
    shelf.find(scale.as_ref().map_or(b"gregorian", |name| name.bytes()))
}

// Whether a calendar has each of the codes.
fn codes_known<S: Shelf>(shelf: &S, place: usize, codes: &[MonthCode]) -> bool
    ensures { result ≡ each_of (code_known (almanac_at (S.Shelf.held shelf.now) place)) codes.now }
{
    codes.iter().all(|code| {
        if code.leap {
            shelf.states_leap(place, code.number)
        } else {
            code.number <= shelf.top(place)
        }
    })
}

// Whether a day is not after UNTIL.
fn within_until(limit: Limit, day: u32) -> bool
    ensures { result ≡ within_until limit day }
{
    !matches!(limit, Limit::Until(last) if last < day)
}

// Whether the rule gives DTSTART's own day.
fn gives_start<S: RuleShelf>(ruled: &ShelfRule<S>) -> bool
    ensures { result ≡ parts_give (almanac_at (S.Shelf.held ruled.now.shelf.now) ruled.now.place) ruled.now.rule.now.parts ruled.now.start ruled.now.start }
{
    let start = ruled.start.day();
    ruled.next(start) == Some(start)
}

// The rule over its calendar, or the first question on the calendar that it fails.
pub fn on_calendar<'r, S: RuleShelf>(
    shelf: &'r S,
    text: &'r RuleText,
    start: RangeDay,
) -> Result<Recurrence, CalendarQuestion>
    ensures { Rules (S.Shelf.held shelf.now) start result (on_calendar (S.Shelf.held shelf.now) (said_by text.now) start) }
{
    let place = calendar_asked(shelf, text.scale).ok_or(CalendarQuestion::OnShelf)?;
    if !codes_known(shelf, place, text.rule.parts.months.items()) {
        return Err(CalendarQuestion::KnownMonths);
    }
    let ruled = ShelfRule {
        shelf,
        place,
        rule: &text.rule,
        start,
    };
    if !gives_start(&ruled) || !within_until(text.limit, start.day()) {
        return Err(CalendarQuestion::StartIsFirst);
    }
    Ok(Recurrence {
        rule: text.rule,
        ending: Ending::of(&ruled, text.limit),
        place,
        scaled: text.scale.is_some(),
    })
}
