// The search for a rule's next day, from period to period and in each from day to day.
ghost use Rattle.std.specs.Prelude.{◌≡◌, ◌≤◌, [], true};
ghost use Rattle.days.specs.Numbers.{in_range};
ghost use Rattle.calendar.specs.Sheets.{Stands, code_at};
ghost use Rattle.sources.specs.Sets.{Found};
ghost use Rattle.rules.specs.Meaning.{gives, period_gives};
ghost use Rattle.rule_months.specs.Filling.{Adds};
ghost use Rattle.rule_days.specs.Onward.{Placed, Reached, reachable, not_after, the_date};

use crate::steps::{first_year, last_counted, next_period, week_of};
use calendar::{Calendar, MonthCode};
use days::RANGE_LAST;
use queue::Queue;
use rule_months::{MonthOf, StartedRule, YearOf, YearlyRule};
use rules::{Frequency, Period, Rule};

// A year of thirteen months gives at most 62 days in each.
const SLOTS: usize = 806;

// A rule over a calendar, from DTSTART on: the day `start`, of the date `date`.
#[derive(Drop)]
pub struct Search<'a, C: Calendar> {
    pub calendar: &'a C,
    pub rule: &'a Rule,
    pub start: u32,
    pub date: (u32, u8, u8),
    ghost ranged: { in_range start ≡ true },
    ghost dated: { Stands (C.Sheets.meaning calendar.now) start date.0 date.1 date.2 },
}

// Whether the calendar has the period, and it does not begin after the range.
fn in_reach<C: Calendar>(calendar: &C, period: Period) -> bool
    ensures { result ≡ reachable (C.Sheets.meaning calendar.now) period }
{
    match period {
        Period::Year(year) | Period::Month(year, _) => calendar.sheet(year).months > 0,
        Period::Week(first) => first <= RANGE_LAST,
        Period::Day(day) => day <= RANGE_LAST,
    }
}

// A day, if it is not after the range.
fn unless_after(day: u32) -> Option<u32>
    ensures { result ≡ not_after day }
{
    (day <= RANGE_LAST).then_some(day)
}

impl<'a, C: Calendar> Search<'a, C> {
    // The code of DTSTART's own month.
    fn own_code(&self) -> MonthCode
        ensures { result ≡ code_at ((C.Sheets.meaning self.now.calendar.now).sheet self.now.date.0) self.now.date.1 }
    {
        let year = YearOf {
            sheet: &self.calendar.sheet(self.date.0),
        };
        let month = MonthOf {
            year,
            place: self.date.1,
        };
        month.code()
    }

    // Adds what the rule gives in a period to an empty queue.
    fn add_period(&self, queue: &mut Queue<u32>, period: Period)
        requires empty { queue.old.entries ≡ [] }
        requires room { 806 ≤ queue.old.places }
        requires placed { Placed (C.Sheets.meaning self.now.calendar.now) period }
        ensures { Adds queue.old queue.new 806 (period_gives (C.Sheets.meaning self.now.calendar.now) self.now.rule.now self.now.start (the_date self.now.date) period) }
    {
        let started = StartedRule {
            rule: self.rule,
            day: self.date.2,
        };
        match period {
            Period::Year(year) => {
                let yearly = YearlyRule {
                    started,
                    own: self.own_code(),
                };
                let year = YearOf {
                    sheet: &self.calendar.sheet(year),
                };
                yearly.add_year(queue, &year);
            }
            Period::Month(year, place) => {
                let year = YearOf {
                    sheet: &self.calendar.sheet(year),
                };
                started.add_month(queue, &year, place);
            }
            Period::Week(first) => self.add_week(queue, first),
            Period::Day(day) => self.add_day(queue, day),
        }
    }

    // A period at which a search for days from `low` on may begin, since none before it gives one. Months are not
    // counted without a walk through the years, so there it is DTSTART's own.
    fn first_period(&self, low: u32) -> Period
        requires { self.now.start ≤ low }
        ensures { Reached (C.Sheets.meaning self.now.calendar.now) self.now.rule.now self.now.start (the_date self.now.date) low result }
    {
        let interval = u32::from(self.rule.parts.interval);
        match self.rule.parts.frequency {
            Frequency::Yearly => Period::Year(first_year(
                self.calendar,
                self.date.0,
                interval,
                low,
            )),
            Frequency::Monthly => Period::Month(self.date.0, self.date.1),
            Frequency::Weekly => {
                let week = week_of(self.rule.parts.week_start, self.start);
                Period::Week(last_counted(week, 7 * interval, low))
            }
            Frequency::Daily => Period::Day(last_counted(self.start, interval, low)),
        }
    }

    // The least day from `low` on that the rule gives.
    pub fn next_from(&self, low: u32) -> Option<u32>
        requires { self.now.start ≤ low }
        ensures { Found (gives (C.Sheets.meaning self.now.calendar.now) self.now.rule.now self.now.start) low result }
    {
        let mut slots = [0; SLOTS];
        let mut queue = Queue::new(&mut slots);
        let mut period = self.first_period(low);
        // For the measure alone: there are so many periods, and no more.
        let mut passed: u32 = 0;
        let found = 'search: loop {
            if !in_reach(self.calendar, period) {
                break 'search None;
            }
            self.add_period(&mut queue, period);
            while let Some(day) = queue.pop() {
                if day >= low {
                    break 'search unless_after(day);
                }
            }
            let Some(next) = next_period(self.calendar, period, self.rule.parts.interval) else {
                break 'search None;
            };
            period = next;
            passed += 1;
        };
        found
    }
}
