// Lists of dates between commas.
ghost use Rattle.std.specs.Prelude.{◌≡◌, ◌-◌, ◌++◌, length, take};
ghost use Rattle.text.specs.Pieces.{pieces};
ghost use Rattle.vevent.specs.Lists.{day_ranged, all_days, days_among, room_after};

use days::in_range;
use short_lists::ShortList;
use text::{Bytes, Pieces, read_day};

// The day in the range that a text names.
pub fn ranged_day<B: Bytes>(text: B) -> Option<u32>
    ensures { result ≡ day_ranged (B.Bytes.left text) }
{
    read_day(text).filter(|&day| in_range(day))
}

// Whether each text between commas names a day in the range.
pub fn is_day_list<B: Bytes>(list: B) -> bool
    ensures { result ≡ all_days (pieces 44 (B.Bytes.left list)) }
{
    Pieces::of(list, b',').all(|date| ranged_day(date).is_some())
}

// What is left of the room for `room` dates after those of a list, or none if they are too many.
pub fn room_after<B: Bytes>(list: B, room: usize) -> Option<usize>
    ensures { result ≡ room_after room (length (pieces 44 (B.Bytes.left list))) }
{
    // Not by `count`, whose proof wants to know that the pieces of any text are fewer than 2^64.
    let mut room = room;
    for _ in Pieces::of(list, b',') {
        room = room.checked_sub(1)?;
    }
    Some(room)
}

// Adds the days of a list that are in the range, while there is room.
pub fn add_days<B: Bytes, const N: usize>(days: &mut ShortList<u32, N>, list: B)
    ensures { days.new ≡ days.old ++ take (N - length days.old) (days_among (pieces 44 (B.Bytes.left list))) }
{
    // As a `for` over `filter_map` the proof does not close: antt refuses what the check itself states of its iterator.
    for date in Pieces::of(list, b',') {
        if let Some(day) = ranged_day(date) {
            if days.push(day).is_err() {
                return;
            }
        }
    }
}
