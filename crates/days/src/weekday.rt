// The seven weekdays.
ghost use Rattle.std.specs.Prelude.{◌≡◌, ◌%◌};
ghost use Rattle.days.specs.Numbers.{remainder, letters};

#[derive(Clone, Copy, Debug, PartialEq, Eq)]
pub enum Weekday {
    Sunday = 0,
    Monday = 1,
    Tuesday = 2,
    Wednesday = 3,
    Thursday = 4,
    Friday = 5,
    Saturday = 6,
}

impl Weekday {
    // The weekday of a day. A number has no cast to an enum, so a match gives the way back from `number`.
    pub fn of(day: u32) -> Weekday
        ensures { remainder result ≡ day % 7 }
    {
        match day % 7 {
            0 => Weekday::Sunday,
            1 => Weekday::Monday,
            2 => Weekday::Tuesday,
            3 => Weekday::Wednesday,
            4 => Weekday::Thursday,
            5 => Weekday::Friday,
            _ => Weekday::Saturday,
        }
    }

    // The remainder by 7 of the days that fall on it.
    pub fn number(self) -> u32
        ensures { result ≡ remainder self }
    {
        self as u32
    }

    // The two letters that stand for it in files.
    pub fn letters(self) -> &'static str
        ensures { result.now ≡ letters self }
    {
        match self {
            Weekday::Sunday => "SU",
            Weekday::Monday => "MO",
            Weekday::Tuesday => "TU",
            Weekday::Wednesday => "WE",
            Weekday::Thursday => "TH",
            Weekday::Friday => "FR",
            Weekday::Saturday => "SA",
        }
    }
}
