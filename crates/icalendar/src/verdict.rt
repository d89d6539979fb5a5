// What becomes of an event.
ghost use Rattle.std.specs.Prelude.{◌≡◌, codes};
ghost use Rattle.lines.specs.View.{line_of};
ghost use Rattle.components.specs.Events.{picked};
ghost use Rattle.icalendar.specs.Verdicts.{rule_on, rule_among, verdict, Rules, RulesOrNone, Says};

use crate::fault::Fault;
use crate::rule::on_calendar;
use days::RangeDay;
use events::RuleShelf;
use lines::{Cursor, value_of};
use refusals::Failed;
use rrule::read_rule;
use series::{Recurrence, Series};
use vevent::{EventLines, check_event, days_of, title_of};

// The rule on a line, for an event that starts on a day. The shelf and the start go together here, in `rule_of` and in
// `on_calendar`: a struct of them would be no plainer, as each call adds something of its own.
fn rule_on<S: RuleShelf>(shelf: &S, line: Cursor, start: RangeDay) -> Result<Recurrence, Fault>
    ensures { Rules (S.Shelf.held shelf.now) start result (rule_on (S.Shelf.held shelf.now) start (line_of line.entry)) }
{
    let place = line.place();
    // A helper for both faults would be no plainer: it would only stand for the two fields.
    let text = read_rule(value_of(line)).map_err(|fault| Fault {
        place,
        failed: Failed::Rule(fault),
    })?;
    on_calendar(shelf, &text, start).map_err(|question| Fault {
        place,
        failed: Failed::Calendar(question),
    })
}

// The rule of an event that starts on a day, if it has one: its first RRULE's.
fn rule_of<S: RuleShelf>(
    shelf: &S,
    event: &EventLines,
    start: RangeDay,
) -> Result<Option<Recurrence>, Fault>
    ensures { RulesOrNone (S.Shelf.held shelf.now) start result (rule_among (S.Shelf.held shelf.now) start (picked (codes "RRULE") event.now.lines)) }
{
    let rule = event.named(b"RRULE").next();
    rule.map(|line| rule_on(shelf, line, start)).transpose()
}

// What becomes of an event of the file of this number: a series record or the first question that it fails.
pub fn read_event<S: RuleShelf>(shelf: &S, event: &EventLines, number: u16) -> Result<Series, Fault>
    ensures { Says (S.Shelf.held shelf.now) result (verdict (S.Shelf.held shelf.now) number event.now) }
{
    let start = check_event(event)?;
    Ok(Series {
        file: number,
        recurrence: rule_of(shelf, event, start)?,
        start,
        rdates: days_of(event, b"RDATE"),
        exdates: days_of(event, b"EXDATE"),
        title: title_of(event),
    })
}
