// The days of a series.
ghost use Rattle.std.specs.Prelude.{◌≡◌, IfOk};
ghost use Rattle.calendar.specs.Shelves.{almanac_at};
ghost use Rattle.sources.specs.Sets.{Found};
ghost use Rattle.sources.specs.Events.{event_days, limit_in, Kept};
ghost use Rattle.rules.specs.Meaning.{gives};
ghost use Rattle.series.specs.Record.{series_days, days_between, as_kept, Ready};

use crate::record::{Recurrence, Series};
use days::RangeDay;
use events::{RuleShelf, ShelfRule};
use sources::{Amendments, Ending, Event, Single, Source};
use std::alloc::{AllocError, Global};

// The ending with the day that is kept in place of its count, since a source asks that the last day of a count be right.
fn as_kept(ending: Ending) -> Ending
    ensures { result ≡ as_kept ending }
{
    match ending {
        Ending::Endless => Ending::Endless,
        Ending::Until(day) => Ending::Until(day),
        Ending::Count { last, .. } => Ending::Until(last.unwrap_or(0)),
    }
}

// The least day at or after `from` of an event with a rule. Apart from `next_day`, so that an event without one, which is
// asked in a few steps, does not lay this one out.
fn next_ruled<S: RuleShelf>(
    shelf: &S,
    recurrence: &Recurrence,
    start: RangeDay,
    amendments: Amendments,
    from: u32,
) -> Option<u32>
    ensures { Kept (gives (almanac_at (S.Shelf.held shelf.now) recurrence.now.place) recurrence.now.rule start) recurrence.now.ending → Found (event_days (gives (almanac_at (S.Shelf.held shelf.now) recurrence.now.place) recurrence.now.rule start) (limit_in recurrence.now.ending) amendments.entry.added.now amendments.entry.excluded.now) from result }
{
    let event = Event {
        rule: ShelfRule {
            shelf,
            place: recurrence.place,
            rule: &recurrence.rule,
            start,
        },
        ending: as_kept(recurrence.ending),
        amendments,
    };
    event.next(from)
}

// The least day at or after `from` that the series gives. What a record in its owner's table keeps with its ending may be
// wrong, and then the answer may be too.
pub fn next_day<S: RuleShelf>(shelf: &S, series: &Series, from: u32) -> Option<u32>
    ensures { Ready (S.Shelf.held shelf.now) series.now → Found (series_days (S.Shelf.held shelf.now) series.now) from result }
{
    let amendments = Amendments {
        added: series.rdates.items(),
        excluded: series.exdates.items(),
    };
    match &series.recurrence {
        Some(recurrence) => next_ruled(shelf, recurrence, series.start, amendments, from),
        // Without a rule DTSTART alone takes its place.
        None => Event {
            rule: Single {
                day: series.start.day(),
            },
            ending: Ending::Endless,
            amendments,
        }
        .next(from),
    }
}

// The days that the series gives from `first` to `last`, both included, in their order.
pub fn days_between<S: RuleShelf>(
    heap: Global,
    shelf: &S,
    series: &Series,
    first: u32,
    last: u32,
) -> Result<Vec<u32>, AllocError>
    requires { Ready (S.Shelf.held shelf.now) series.now }
    ensures { IfOk result (λ days. days.items ≡ days_between (series_days (S.Shelf.held shelf.now) series.now) first last) }
{
    let mut days = Vec::new(heap);
    let mut from = first;
    while let Some(day) = next_day(shelf, series, from) {
        if day > last {
            break;
        }
        days.push(day)?;
        from = day + 1;
    }
    Ok(days)
}
