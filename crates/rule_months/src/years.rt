// The days of months and years into a queue.
ghost use Rattle.std.specs.Prelude.{◌≡◌, ℕ, ◌+◌, ◌*◌, ◌≤◌, ◌&&◌, length, nat_le};
ghost use Rattle.calendar.specs.Sheets.{code_at};
ghost use Rattle.rules.specs.Meaning.{Date, month_at, some_month, code_passes, year_gives};
ghost use Rattle.rule_months.specs.Filling.{Adds, in_month, taken, by_day_alone};

use crate::codes::{chosen_month, code_gives};
use crate::filling::{StartedRule, add_weekdays};
use crate::limits::code_passes;
use crate::month::{MonthOf, YearOf};
use calendar::MonthCode;
use queue::Queue;
use rules::Rule;

// As in `filling`, each asks for room for as many days as it may add, which no type of a queue says.
impl<'a> StartedRule<'a> {
    // Adds what the rule gives in the month at a place, as a period of its own.
    pub fn add_month(&self, queue: &mut Queue<u32>, year: &YearOf, place: u8)
        requires room { length queue.old.entries + 62 ≤ queue.old.places }
        requires place { 1 ≤ place }
        ensures { Adds queue.old queue.new 62 (λ n. (nat_le place year.now.sheet.now.months && code_passes self.now.rule.now (code_at year.now.sheet.now place)) && in_month self.now.rule.now self.now.day (month_at year.now.sheet.now place) n) }
    {
        if place > year.sheet.months {
            return;
        }
        let month = MonthOf { year: *year, place };
        if code_passes(self.rule, month.code()) {
            self.add_in_month(queue, &month);
        }
    }
}

// Whether BYDAY stands alone, so that its weekdays are counted in the whole year.
fn weekdays_alone(rule: &Rule) -> bool
    ensures { result ≡ by_day_alone rule.now }
{
    !rule.has_month_days() && rule.has_weekdays() && !rule.has_months()
}

// A rule in years, with the code of the month in which it starts.
#[derive(Clone, Copy)]
pub struct YearlyRule<'a> {
    pub started: StartedRule<'a>,
    pub own: MonthCode,
}

impl<'a> YearlyRule<'a> {
    // Whether the days of a month are among its year's.
    fn takes(&self, month: &MonthOf) -> bool
        ensures { result ≡ taken self.now.started.rule.now self.now.own month.now.year.sheet.now month.now.place }
    {
        let rule = self.started.rule;
        if rule.has_months() {
            chosen_month(rule, month)
        } else {
            rule.has_month_days() || code_gives(rule.parts.skip, month, self.own)
        }
    }

    // Adds what the rule gives in a month of a year.
    fn add_taken(&self, queue: &mut Queue<u32>, month: &MonthOf)
        requires room { length queue.old.entries + 62 ≤ queue.old.places }
        ensures { Adds queue.old queue.new 62 (λ n. taken self.now.started.rule.now self.now.own month.now.year.sheet.now month.now.place && in_month self.now.started.rule.now self.now.started.day (month_at month.now.year.sheet.now month.now.place) n) }
    {
        if self.takes(month) {
            self.started.add_in_month(queue, month);
        }
    }

    // Adds what the rule gives in the months of a year.
    fn add_months(&self, queue: &mut Queue<u32>, year: &YearOf)
        requires room { length queue.old.entries + 806 ≤ queue.old.places }
        ensures { Adds queue.old queue.new 806 (λ n. some_month year.now.sheet.now (λ p. taken self.now.started.rule.now self.now.own year.now.sheet.now p && in_month self.now.started.rule.now self.now.started.day (month_at year.now.sheet.now p) n)) }
    {
        for place in 1..year.sheet.months + 1 {
            self.add_taken(queue, &MonthOf { year: *year, place });
        }
    }

    // Adds what the rule gives in a year.
    pub fn add_year(&self, queue: &mut Queue<u32>, year: &YearOf)
        requires room { length queue.old.entries + 806 ≤ queue.old.places }
        ensures { (t : Date) → t.day ≡ self.now.started.day → Adds queue.old queue.new 806 (year_gives self.now.started.rule.now t self.now.own year.now.sheet.now) }
    {
        if weekdays_alone(self.started.rule) {
            add_weekdays(queue, self.started.rule, year.stretch());
        } else {
            self.add_months(queue, year);
        }
    }
}
