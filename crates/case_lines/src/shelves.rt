// The shelves of the cases.
ghost use Rattle.std.specs.Prelude.{◌≡◌};

use calendar::{Empty, On};
use calendars::coptic::Coptic;
use calendars::gregorian::Gregorian;
use calendars::hebrew::Hebrew;
use calendars::islamic::IslamicCivil;
use events::RuleShelf;
use other_calendars::many_leaps::ManyLeaps;
use other_calendars::same_name::SameName;
use other_calendars::short_months::ShortMonths;

// The unit's four calendars, the office calendar first.
pub type FourAnd<R> = On<Gregorian, On<Coptic, On<IslamicCivil, On<Hebrew, R>>>>;

// As many calendars as a shelf holds, one of them twice.
type Eight = On<
    ShortMonths,
    On<
        ManyLeaps,
        On<
            Coptic,
            On<Hebrew, On<IslamicCivil, On<ShortMonths, On<Gregorian, On<SameName, Empty>>>>>,
        >,
    >,
>;

// A calendar beside a shorter shelf.
fn on<C, R>(calendar: C, rest: R) -> On<C, R>
    ensures { (result.calendar ≡ calendar) × (result.rest ≡ rest) }
{
    On { calendar, rest }
}

// The four before others.
fn four_and<R>(rest: R) -> FourAnd<R>
    ensures { result.rest.rest.rest.rest ≡ rest }
{
    on(Gregorian, on(Coptic, on(IslamicCivil, on(Hebrew, rest))))
}

// The unit's four calendars.
pub fn four() -> FourAnd<Empty> {
    four_and(Empty)
}

fn eight() -> Eight {
    let last = on(ShortMonths, on(Gregorian, on(SameName, Empty)));
    on(
        ShortMonths,
        on(ManyLeaps, on(Coptic, on(Hebrew, on(IslamicCivil, last)))),
    )
}

// What is done over a shelf.
pub trait OverShelf {
    type Done;

    fn over<S: RuleShelf>(&self, shelf: &S) -> Self::Done;
}

// Does it over the shelf of a name, or nothing where no shelf has the name.
pub fn over_shelf<T: OverShelf>(name: &[u8], task: &T) -> Option<T::Done> {
    match name {
        b"none" => Some(task.over(&Empty)),
        b"hebrew" => Some(task.over(&on(Hebrew, Empty))),
        b"hebrew-gregorian" => Some(task.over(&on(Hebrew, on(Gregorian, Empty)))),
        b"hebrew-coptic" => Some(task.over(&on(Hebrew, on(Coptic, Empty)))),
        b"gregorian-same-name" => Some(task.over(&on(Gregorian, on(SameName, Empty)))),
        b"four" => Some(task.over(&four_and(Empty))),
        b"four-leaps" => Some(task.over(&four_and(on(ManyLeaps, Empty)))),
        b"four-short" => Some(task.over(&four_and(on(ShortMonths, Empty)))),
        b"same-name-four" => Some(task.over(&on(SameName, four_and(Empty)))),
        b"eight" => Some(task.over(&eight())),
        _ => None,
    }
}
