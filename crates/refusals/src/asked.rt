// The questions, each case named for what is wanted and given its number.

// What a file is asked.
#[derive(Clone, Copy, Debug, PartialEq, Eq)]
pub enum FileQuestion {
    // at most 60,000 bytes
    Size = 4,
    // one physical line or more, each ending in CR LF, with no other CR or LF
    LineEnds = 5,
    // each logical line a name, parameters and a colon outside quotes
    LineForms = 7,
    // one VCALENDAR around all lines, each END matching the innermost BEGIN, at most eight levels
    Nesting = 8,
}

// What a call of the plan is asked, beside what a file is.
#[derive(Clone, Copy, Debug, PartialEq, Eq)]
pub enum PlanQuestion {
    // in each table all places that are in use, and in the queue one for each series
    FullTables = 1,
    // both days of the window in the range
    WindowInRange = 2,
    // its first day not after its last
    WindowInOrder = 3,
    // fewer than 999 files accepted
    FewFiles = 9,
    // as many free series and queue places as the file has events
    RoomForSeries = 10,
    // as many free fault places too
    RoomForFaults = 11,
    // the day in the window
    DayInWindow = 12,
    // the day not before the mark's
    DayNotPassed = 13,
    // 19 bytes of the text buffer for each fault
    RoomForReport = 14,
}

// What an event's own lines are asked.
#[derive(Clone, Copy, Debug, PartialEq, Eq)]
pub enum EventQuestion {
    // just one DTSTART
    OneStart = 21,
    // VALUE=DATE and a real date
    StartDate = 22,
    // DTSTART in the range
    StartInRange = 23,
    // at most one RRULE
    OneRule = 24,
    // RDATE and EXDATE lists of real dates in the range
    DateLists = 25,
    // at most 16 RDATE and 32 EXDATE dates
    FewDates = 26,
    // no RECURRENCE-ID and no EXRULE
    NothingReplaced = 27,
}

// What the text of a rule is asked.
#[derive(Clone, Copy, Debug, PartialEq, Eq)]
pub enum RuleQuestion {
    // NAME=VALUE between semicolons, of known names, none twice
    NamedParts = 31,
    // each value of the form that its name asks for
    ValueForms = 32,
    // FREQ
    HasFrequency = 33,
    // not both COUNT and UNTIL
    OneLimit = 34,
    // SKIP only with RSCALE
    ScaledSkip = 35,
    // no BYMONTHDAY with WEEKLY
    NoMonthDaysInWeeks = 38,
    // a numbered BYDAY only in months or years, and without BYMONTHDAY
    NumberedWeekdays = 39,
}

// What a rule is asked about its calendar.
#[derive(Clone, Copy, Debug, PartialEq, Eq)]
pub enum CalendarQuestion {
    // the shelf has a calendar of the name
    OnShelf = 36,
    // the calendar has BYMONTH's codes
    KnownMonths = 37,
    // DTSTART is the first day that the rule gives
    StartIsFirst = 41,
}

// A question that an event failed, by its layer.
#[derive(Clone, Copy, Debug, PartialEq, Eq)]
pub enum Failed {
    Event(EventQuestion),
    Rule(RuleQuestion),
    Calendar(CalendarQuestion),
}
