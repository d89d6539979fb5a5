// Years and their months by their places, and the days that they have.
ghost use Rattle.std.specs.Prelude.{◌≡◌, ◌-◌, ◌≤◌};
ghost use Rattle.calendar.specs.Sheets.{code_at};
ghost use Rattle.rules.specs.Meaning.{month_at, whole_year};
ghost use Rattle.rule_months.specs.Filling.{Usable};

use calendar::{MonthCode, Sheet};
use days::months::days_of;
use rules::Stretch;

// A year of a calendar, by its sheet.
#[derive(Clone, Copy)]
pub struct YearOf<'a> {
    pub sheet: &'a Sheet,
    ghost usable: { Usable sheet.now },
}

impl<'a> YearOf<'a> {
    // Its days.
    pub fn stretch(&self) -> Stretch
        ensures { result ≡ whole_year self.now.sheet.now }
    {
        Stretch {
            from: self.sheet.first,
            size: days_of(self.sheet.month_lengths()),
        }
    }
}

// The month at a place of a year.
#[derive(Clone, Copy)]
pub struct MonthOf<'a> {
    pub year: YearOf<'a>,
    pub place: u8,
    ghost placed: { (1 ≤ place) × (place ≤ year.sheet.now.months) },
}

impl<'a> MonthOf<'a> {
    // Where it stands in the arrays of its year's sheet. A month that held its code and its days would say the sheet
    // again.
    fn index(&self) -> usize
        ensures { result ≡ self.now.place - 1 }
    {
        usize::from(self.place) - 1
    }

    pub fn code(&self) -> MonthCode
        ensures { result ≡ code_at self.now.year.sheet.now self.now.place }
    {
        self.year.sheet.codes[self.index()]
    }

    pub fn length(&self) -> u8
        ensures { result ≡ (month_at self.now.year.sheet.now self.now.place).size }
    {
        self.year.sheet.lengths[self.index()]
    }

    // Its days.
    pub fn stretch(&self) -> Stretch
        ensures { result ≡ month_at self.now.year.sheet.now self.now.place }
    {
        Stretch {
            from: self.year.sheet.first + days_of(&self.year.sheet.lengths[..self.index()]),
            size: u32::from(self.length()),
        }
    }
}
