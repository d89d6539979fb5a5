// Day numbers, weekdays, the Gregorian calendar and the eight-digit dates of files.
#![tactic(auto)]

ghost use Rattle.std.specs.Prelude.{◌≡◌};
ghost use Rattle.days.specs.Numbers.{in_range};

pub mod digits;
pub mod gregorian;
pub mod months;
mod printing;
mod range_day;
pub mod weekday;

pub use range_day::RangeDay;

// The range: the days that events may use, 1900-01-01 to 2199-12-31.
pub const RANGE_FIRST: u32 = 693_596;

pub const RANGE_LAST: u32 = 803_168;

// The span: the days in which every answered year of a calendar lies.
pub const SPAN_FIRST: u32 = 693_000;

pub const SPAN_LAST: u32 = 804_000;

// Whether a day is in the range.
pub fn in_range(day: u32) -> bool
    ensures { result ≡ in_range day }
{
    (RANGE_FIRST..=RANGE_LAST).contains(&day)
}
