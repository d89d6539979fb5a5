// Tables whose places are blank. Each function writes out what a blank place holds: the check of borrows cannot build its plan
// where a call makes the record of a series and another takes it.
ghost use Rattle.std.specs.Prelude.{◌≡◌, IfOk, length};

use days::RangeDay;
use icalendar::Fault;
use owed::Line;
use refusals::{EventQuestion, Failed};
use report::FaultEntry;
use series::Series;
use short_lists::ShortList;
use std::alloc::{AllocError, Global};

// The first day of the range, 1 January 1900.
const FIRST_DAY: u32 = 693_596;

fn first_day() -> RangeDay
    ensures { result ≡ 693596 }
{
    RangeDay::new(FIRST_DAY).unwrap()
}

pub(crate) fn series_table(heap: Global, places: usize) -> Result<Vec<Series>, AllocError>
    ensures { IfOk result (λ table. length table.items ≡ places) }
{
    let blank = Series {
        file: 0,
        recurrence: None,
        start: first_day(),
        rdates: ShortList::new(),
        exdates: ShortList::new(),
        title: None,
    };
    Vec::from_elem(heap, blank, places)
}

pub(crate) fn fault_table(heap: Global, places: usize) -> Result<Vec<FaultEntry>, AllocError>
    ensures { IfOk result (λ table. length table.items ≡ places) }
{
    let blank = FaultEntry {
        file: 0,
        event: 0,
        fault: Fault {
            place: 0,
            failed: Failed::Event(EventQuestion::OneStart),
        },
    };
    Vec::from_elem(heap, blank, places)
}

pub(crate) fn queue_table(heap: Global, places: usize) -> Result<Vec<Line>, AllocError>
    ensures { IfOk result (λ table. length table.items ≡ places) }
{
    Vec::from_elem(heap, Line { day: 0, series: 0 }, places)
}
