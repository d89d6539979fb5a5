// The months of a year, by their lengths. Each function asks for at most thirteen, so that places and sums fit: the
// slices are of whole years and of parts of years, which no array's type says.
ghost use Rattle.std.specs.Prelude.{◌≡◌, ◌*◌, ◌≤◌, length};
ghost use Rattle.days.specs.Months.{total, Placed, Counted};

// The place of the month, counted from 1, and the day of it that follow `past` whole days of the year.
pub fn place_after(lengths: &[u8], past: u32) -> Option<(u8, u8)>
    requires { length lengths.now ≤ 13 }
    ensures { Placed lengths.now past result }
{
    // A walk that carries the rest along; both numbers fit, and a `try_from` would need an answer for a case that cannot be.
    let mut rest = past;
    for (i, length) in lengths.iter().enumerate() {
        let days = u32::from(*length);
        if rest < days {
            return Some((i as u8 + 1, rest as u8 + 1));
        }
        rest -= days;
    }
    None
}

// The days of some months together.
pub fn days_of(lengths: &[u8]) -> u32
    requires { length lengths.now ≤ 13 }
    ensures value { result ≡ total lengths.now }
    ensures most { result ≤ 255 * length lengths.now }
{
    lengths.iter().map(|&days| u32::from(days)).sum()
}

// How many whole days of the year are past on a day of it.
pub fn days_past(lengths: &[u8], place: u8, day: u8) -> Option<u32>
    requires { length lengths.now ≤ 13 }
    ensures { Counted lengths.now place day result }
{
    let months = usize::from(place).checked_sub(1)?;
    let length = *lengths.get(months)?;
    if !(1..=length).contains(&day) {
        return None;
    }
    Some(days_of(&lengths[..months]) + u32::from(day) - 1)
}
