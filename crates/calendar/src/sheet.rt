// Month codes and year sheets.
ghost use Rattle.std.specs.Prelude.{◌≡◌, ◌≤◌, length, take, position};
ghost use Rattle.days.specs.Months.{Counted};
ghost use Rattle.calendar.specs.Sheets.{plain_code, leap_code, no_code, empty_sheet, lengths_of, codes_of};
ghost use Rattle.calendar.specs.Dates.{CodeFound, is_same};

use days::months::days_past;
use short_lists::Blank;

// A month's number from 1 to 13, alone or marked as that of a leap month: 5 and 5L are two codes.
#[derive(Clone, Copy, Debug, PartialEq, Eq)]
pub struct MonthCode {
    pub number: u8,
    pub leap: bool,
}

impl MonthCode {
    pub fn plain(number: u8) -> MonthCode
        ensures { result ≡ plain_code number }
    {
        MonthCode {
            number,
            leap: false,
        }
    }

    // The code of the leap month that follows the month of this number.
    pub fn leap(number: u8) -> MonthCode
        ensures { result ≡ leap_code number }
    {
        MonthCode { number, leap: true }
    }
}

impl Blank for MonthCode {
    ghost blank = { no_code };

    fn blank() -> MonthCode {
        MonthCode::plain(0)
    }
}

// A year, handed over whole: its first day, how many months it has, and each month's code and length in the order
// of the months. Places that no month uses are zero. A year that a calendar does not answer has no months.
#[derive(Clone, Copy, Debug)]
pub struct Sheet {
    pub first: u32,
    pub months: u8,
    pub codes: [MonthCode; 13],
    pub lengths: [u8; 13],
}

// The first places of a sheet's array, as many as there are months.
fn first_places<T>(all: &[T; 13], months: u8) -> &[T]
    ensures value { result.now ≡ take months all.now }
    ensures most { length result.now ≤ 13 }
{
    &all[..usize::from(months).min(13)]
}

impl Sheet {
    // The sheet of a year that a calendar does not answer.
    pub fn empty() -> Sheet
        ensures { result ≡ empty_sheet }
    {
        Sheet {
            first: 0,
            months: 0,
            codes: [MonthCode::blank(); 13],
            lengths: [0; 13],
        }
    }

    // The codes of its months.
    pub fn month_codes(&self) -> &[MonthCode]
        ensures value { result.now ≡ codes_of self.now }
        ensures most { length result.now ≤ 13 }
    {
        first_places(&self.codes, self.months)
    }

    // The lengths of its months.
    pub fn month_lengths(&self) -> &[u8]
        ensures value { result.now ≡ lengths_of self.now }
        ensures most { length result.now ≤ 13 }
    {
        first_places(&self.lengths, self.months)
    }

    // How many months stand before the first that bears the code.
    fn months_before(&self, code: MonthCode) -> Option<usize>
        ensures { result ≡ position (λ c. is_same c code) (codes_of self.now) }
    {
        self.month_codes().iter().position(|&c| c == code)
    }

    // The place of the month that bears the code, counted from 1.
    pub fn place_of(&self, code: MonthCode) -> Option<u8>
        ensures { self.now.months ≤ 13 → CodeFound self.now code result }
    {
        let before = self.months_before(code)?;
        // It fits, and a `try_from` would need an answer for a case that cannot be.
        Some(before as u8 + 1)
    }

    // How many whole days of the year are past on a day of it.
    pub fn days_into(&self, month: u8, day: u8) -> Option<u32>
        ensures { Counted (lengths_of self.now) month day result }
    {
        days_past(self.month_lengths(), month, day)
    }
}
