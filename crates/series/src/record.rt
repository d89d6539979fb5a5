// A series record, which lies in its owner's table.
use days::RangeDay;
use rules::Rule;
use short_lists::ShortList;
use sources::Ending;

// A rule with its ending, over the calendar at a place of the shelf.
#[derive(Clone, Copy)]
pub struct Recurrence {
    pub rule: Rule,
    pub ending: Ending,
    // the place of the rule's calendar on the shelf, from 0
    pub place: usize,
    // whether RSCALE was written
    pub scaled: bool,
}

// What is kept of an accepted event.
#[derive(Clone, Copy)]
pub struct Series {
    // the number of its file, from 1
    pub file: u16,
    pub recurrence: Option<Recurrence>,
    // DTSTART's day
    pub start: RangeDay,
    pub rdates: ShortList<u32, 16>,
    pub exdates: ShortList<u32, 32>,
    // the first bytes of SUMMARY
    pub title: Option<ShortList<u8, 32>>,
}
