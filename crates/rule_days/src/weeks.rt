// The days of weeks, and single days, into a queue.
ghost use Rattle.std.specs.Prelude.{◌≡◌, ◌+◌, ◌%◌, ◌<◌, ◌≤◌, ◌&&◌, ◌||◌, length, if◌then◌else◌, ◌==◌};
ghost use Rattle.calendar.specs.Sheets.{code_at};
ghost use Rattle.rules.specs.Parts.{no_items};
ghost use Rattle.rules.specs.Meaning.{by_month, by_day, month_at, weekday_passes, code_passes, value_passes, date_of, date_passes, week_gives, day_gives};
ghost use Rattle.rule_months.specs.Filling.{Adds};

use crate::search::Search;
use calendar::Calendar;
use days::weekday::Weekday;
use queue::Queue;
use rule_months::{MonthOf, YearOf, add_if, code_passes, value_passes, weekday_passes};
use rules::Rule;

// Whether BYMONTH and BYMONTHDAY let the day of a month pass.
fn passes_in(rule: &Rule, month: &MonthOf, date: u8) -> bool
    ensures { result ≡ (code_passes rule.now (code_at month.now.year.sheet.now month.now.place) && value_passes rule.now date (month_at month.now.year.sheet.now month.now.place).size) }
{
    code_passes(rule, month.code()) && value_passes(rule, date, month.length())
}

// As in crate rule_months, each asks for room for as many days as it may add, which no type of a queue says.
impl<'a, C: Calendar> Search<'a, C> {
    // Whether BYMONTH and BYMONTHDAY let a day pass, by its own date.
    fn date_passes(&self, day: u32) -> bool
        ensures { result ≡ date_passes (C.Sheets.meaning self.now.calendar.now) self.now.rule.now (date_of (C.Sheets.meaning self.now.calendar.now) day) }
    {
        // In a closure for `is_some_and` it would not be known that the month stands in the year.
        match self.calendar.date(day) {
            Some((year, place, date)) => {
                let year = YearOf {
                    sheet: &self.calendar.sheet(year),
                };
                passes_in(self.rule, &MonthOf { year, place }, date)
            }
            None => false,
        }
    }

    // Whether a day of a week that counts is one of the rule's.
    fn week_keeps(&self, day: u32) -> bool
        ensures { result ≡ ((if no_items (by_day self.now.rule.now) then (day % 7 == self.now.start % 7) else weekday_passes self.now.rule.now day) && (no_items (by_month self.now.rule.now) || date_passes (C.Sheets.meaning self.now.calendar.now) self.now.rule.now (date_of (C.Sheets.meaning self.now.calendar.now) day))) }
    {
        let falls = if self.rule.has_weekdays() {
            weekday_passes(self.rule, day)
        } else {
            Weekday::of(day) == Weekday::of(self.start)
        };
        falls && (!self.rule.has_months() || self.date_passes(day))
    }

    // Adds what the rule gives in the week that begins on `first`.
    pub fn add_week(&self, queue: &mut Queue<u32>, first: u32)
        requires room { length queue.old.entries + 7 ≤ queue.old.places }
        requires first { first ≤ 804000 }
        ensures { Adds queue.old queue.new 7 (week_gives (C.Sheets.meaning self.now.calendar.now) self.now.rule.now self.now.start first) }
    {
        for day in first..first + 7 {
            add_if(queue, day, self.week_keeps(day));
        }
    }

    // Adds a day that counts, if it is one of the rule's.
    pub fn add_day(&self, queue: &mut Queue<u32>, day: u32)
        requires room { length queue.old.entries < queue.old.places }
        ensures { Adds queue.old queue.new 1 (day_gives (C.Sheets.meaning self.now.calendar.now) self.now.rule.now day) }
    {
        let keep = weekday_passes(self.rule, day) && self.date_passes(day);
        add_if(queue, day, keep);
    }
}
