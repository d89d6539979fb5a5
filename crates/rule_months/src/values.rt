// Values in months.
ghost use Rattle.std.specs.Prelude.{◌≡◌, true};
ghost use Rattle.rules.specs.Parts.{position_ok};
ghost use Rattle.rules.specs.Meaning.{beyond, value_gives};
ghost use Rattle.rule_months.specs.Filling.{OneDay, Small};

use rules::{Position, Skip, Stretch};

// The day that a value above the month's length gives.
fn day_beyond(skip: Skip, month: Stretch) -> Option<u32>
    requires { Small month }
    ensures { OneDay (beyond skip month) result }
{
    match skip {
        Skip::Omit => None,
        Skip::Backward => (month.from + month.size).checked_sub(1),
        Skip::Forward => Some(month.from + month.size),
    }
}

// The day that a value gives in a month.
pub fn value_day(skip: Skip, month: Stretch, value: Position) -> Option<u32>
    requires { (Small month) × (position_ok 255 value ≡ true) }
    ensures { OneDay (λ n. value_gives skip month n value) result }
{
    match value {
        Position::FromStart(v) => {
            let v = u32::from(v);
            if v <= month.size {
                Some(month.from + v - 1)
            } else {
                day_beyond(skip, month)
            }
        }
        Position::FromEnd(v) => {
            let before = month.size.checked_sub(u32::from(v))?;
            Some(month.from + before)
        }
    }
}
