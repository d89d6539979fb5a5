// What stands for parts that are not there.
ghost use Rattle.std.specs.Prelude.{◌≡◌};
ghost use Rattle.rrule.specs.Rule.{the_interval, the_limit};

use rule_values::{LastDay, Number};
use sources::Limit;

pub fn interval_or_one(interval: Option<Number<999>>) -> u16
    ensures { result ≡ the_interval interval }
{
    interval.map_or(1, |number| number.value())
}

// Where the rule ends: COUNT, UNTIL or nowhere.
pub fn limit(count: Option<Number<9999>>, until: Option<LastDay>) -> Limit
    ensures { result ≡ the_limit count until }
{
    count
        .map(|count| Limit::Count(count.value()))
        .or_else(|| until.map(|last| Limit::Until(last.day)))
        .unwrap_or(Limit::Endless)
}
