// What follows from the laws alone, for every lawful calendar.
ghost use Rattle.calendar.specs.Consequences.{FromTheLaws, ShutOut};

// Each covered day has exactly one date, a date is one day, months and years meet, and no code stands twice in a year.
pub fn laws_give()
    ensures { FromTheLaws }
{}

// A calendar with no years or one year only is not lawful, and a covered day is never without a date.
pub fn laws_shut_out()
    ensures { ShutOut }
{}
