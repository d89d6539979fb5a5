// Days into a queue: what a rule's parts give in a stretch of days.
ghost use Rattle.std.specs.Prelude.{◌≡◌, ◌+◌, ◌<◌, ◌≤◌, true, ◌&&◌, length, ◌==◌};
ghost use Rattle.rules.specs.Parts.{some_of, each_of, position_ok};
ghost use Rattle.rules.specs.Meaning.{month_at, weekday_passes, value_gives, month_days_give, weekdays_give};
ghost use Rattle.rule_months.specs.Filling.{OneDay, Small, Adds, in_month};

use crate::limits::{weekday_passes, weekdays_give};
use crate::month::MonthOf;
use crate::values::value_day;
use queue::Queue;
use rules::{Position, Rule, Stretch};

// Each of these asks for room for as many days as it may add, a number of its own, which no type of a queue says.

// Adds a day, if it is to be kept. With an `Option` each caller would say of the day what its test says itself.
pub fn add_if(queue: &mut Queue<u32>, day: u32, keep: bool)
    requires room { length queue.old.entries < queue.old.places }
    ensures { Adds queue.old queue.new 1 (λ n. keep && n == day) }
{
    if keep {
        queue.push(day);
    }
}

// Adds the day that a value gives in a month, unless BYDAY keeps it out.
fn add_value(queue: &mut Queue<u32>, rule: &Rule, month: Stretch, value: Position)
    requires room { length queue.old.entries < queue.old.places }
    requires small { Small month }
    requires value { position_ok 255 value ≡ true }
    ensures { Adds queue.old queue.new 1 (λ n. weekday_passes rule.now n && value_gives rule.now.parts.skip month n value) }
{
    if let Some(day) = value_day(rule.parts.skip, month, value) {
        add_if(queue, day, weekday_passes(rule, day));
    }
}

// Adds the days that some values give in a month, unless BYDAY keeps them out.
fn add_listed(queue: &mut Queue<u32>, rule: &Rule, month: Stretch, list: &[Position])
    requires room { length queue.old.entries + length list.now ≤ queue.old.places }
    requires small { Small month }
    requires values { each_of (position_ok 31) list.now ≡ true }
    ensures { Adds queue.old queue.new (length list.now) (λ n. weekday_passes rule.now n && some_of (value_gives rule.now.parts.skip month n) list.now) }
{
    for value in list {
        add_value(queue, rule, month, *value);
    }
}

// Adds the days that BYMONTHDAY gives in a month, limited by BYDAY.
fn add_month_days(queue: &mut Queue<u32>, rule: &Rule, month: Stretch)
    requires room { length queue.old.entries + 62 ≤ queue.old.places }
    requires small { Small month }
    ensures { Adds queue.old queue.new 62 (λ n. weekday_passes rule.now n && month_days_give rule.now month n) }
{
    add_listed(queue, rule, month, rule.parts.month_days.items());
}

// Adds the days of a stretch that BYDAY gives in it.
pub fn add_weekdays(queue: &mut Queue<u32>, rule: &Rule, stretch: Stretch)
    requires room { length queue.old.entries + stretch.size ≤ queue.old.places }
    requires small { Small stretch }
    ensures { Adds queue.old queue.new stretch.size (weekdays_give rule.now stretch) }
{
    for day in stretch.from..stretch.from + stretch.size {
        add_if(queue, day, weekdays_give(rule, stretch, day));
    }
}

// A rule, and on which day of its month it starts.
#[derive(Clone, Copy)]
pub struct StartedRule<'a> {
    pub rule: &'a Rule,
    pub day: u8,
    ghost counted: { (1 ≤ day) × (day ≤ 255) },
}

impl<'a> StartedRule<'a> {
    // Adds what the rule's parts give in a month.
    pub fn add_in_month(&self, queue: &mut Queue<u32>, month: &MonthOf)
        requires room { length queue.old.entries + 62 ≤ queue.old.places }
        ensures { Adds queue.old queue.new 62 (in_month self.now.rule.now self.now.day (month_at month.now.year.sheet.now month.now.place)) }
    {
        let days = month.stretch();
        if self.rule.has_month_days() {
            add_month_days(queue, self.rule, days);
        } else if self.rule.has_weekdays() {
            add_weekdays(queue, self.rule, days);
        } else {
            // The day on which it starts, as a value in another month.
            add_value(queue, self.rule, days, Position::FromStart(self.day));
        }
    }
}
