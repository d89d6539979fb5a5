// Series records and lines, as they are printed.
use events::RuleShelf;
use owed::Line;
use rules::{ByDay, Frequency, Parts, Position, Skip};
use series::{Recurrence, Series, next_day};
use sources::Ending;
use std::io;
use std::io::Write;

fn frequency_word(frequency: Frequency) -> &'static str {
    match frequency {
        Frequency::Yearly => "yearly",
        Frequency::Monthly => "monthly",
        Frequency::Weekly => "weekly",
        Frequency::Daily => "daily",
    }
}

fn skip_word(skip: Skip) -> &'static str {
    match skip {
        Skip::Omit => "omit",
        Skip::Backward => "backward",
        Skip::Forward => "forward",
    }
}

fn print_position(rt: &HostRuntime, position: Position) -> io::Result<()> {
    match position {
        Position::FromStart(n) => print!(rt; " {n}"),
        Position::FromEnd(n) => print!(rt; " -{n}"),
    }
}

fn print_weekday(rt: &HostRuntime, by_day: ByDay) -> io::Result<()> {
    match by_day.position {
        Some(position) => print_position(rt, position)?,
        None => print!(rt; " ")?,
    }
    print!(rt; "{}", by_day.weekday.letters())
}

fn print_months(rt: &HostRuntime, parts: &Parts) -> io::Result<()> {
    print!(rt; " months")?;
    for code in parts.months.items() {
        print!(rt; " {code}")?;
    }
    Ok(())
}

fn print_month_days(rt: &HostRuntime, parts: &Parts) -> io::Result<()> {
    print!(rt; " monthdays")?;
    for position in parts.month_days.items() {
        print_position(rt, *position)?;
    }
    Ok(())
}

fn print_weekdays(rt: &HostRuntime, parts: &Parts) -> io::Result<()> {
    print!(rt; " weekdays")?;
    for by_day in parts.weekdays.items() {
        print_weekday(rt, *by_day)?;
    }
    Ok(())
}

fn print_parts(rt: &HostRuntime, parts: &Parts) -> io::Result<()> {
    let frequency = frequency_word(parts.frequency);
    let skip = skip_word(parts.skip);
    let week_start = parts.week_start.letters();
    print!(rt;
        " {frequency} every {} from {week_start} {skip}",
        parts.interval
    )?;
    print_months(rt, parts)?;
    print_month_days(rt, parts)?;
    print_weekdays(rt, parts)
}

fn print_ending(rt: &HostRuntime, ending: Ending) -> io::Result<()> {
    match ending {
        Ending::Endless => Ok(()),
        Ending::Until(day) => print!(rt; " until {day}"),
        Ending::Count {
            n,
            last: Some(last),
        } => print!(rt; " count {n} last {last}"),
        Ending::Count { n, last: None } => print!(rt; " count {n} none"),
    }
}

fn print_recurrence(rt: &HostRuntime, recurrence: &Recurrence) -> io::Result<()> {
    print_parts(rt, &recurrence.rule.parts)?;
    print_ending(rt, recurrence.ending)?;
    let scaled = if recurrence.scaled { "" } else { " unnamed" };
    print!(rt; " calendar {}{scaled}", recurrence.place)
}

fn print_days(rt: &HostRuntime, days: &[u32]) -> io::Result<()> {
    for day in days {
        print!(rt; " {day}")?;
    }
    Ok(())
}

fn print_title(rt: &HostRuntime, series: &Series) -> io::Result<()> {
    if let Some(title) = &series.title {
        print!(rt; " title ")?;
        rt.stdout().write_all(title.items())?;
    }
    println!(rt; "")
}

// A record on a line of its own.
pub(crate) fn print_series(rt: &HostRuntime, number: usize, series: &Series) -> io::Result<()> {
    print!(rt;
        "series {number:03} file {:03} start {}",
        series.file,
        series.start.day()
    )?;
    if let Some(recurrence) = &series.recurrence {
        print_recurrence(rt, recurrence)?;
    }
    print!(rt; " and")?;
    print_days(rt, series.rdates.items())?;
    print!(rt; " but")?;
    print_days(rt, series.exdates.items())?;
    print_title(rt, series)
}

// The lines of a series that are after one mark and not after another, each on a line of its own behind a word.
pub(crate) fn print_lines<S: RuleShelf>(
    rt: &HostRuntime,
    shelf: &S,
    word: &str,
    number: u16,
    series: &Series,
    after: Line,
    upto: Line,
) -> io::Result<()> {
    let mut from = after.day;
    while let Some(day) = next_day(shelf, series, from) {
        let line = Line {
            day,
            series: number,
        };
        if day < from || upto < line {
            break;
        }
        if after < line {
            println!(rt; "{word} {day} {number:03}")?;
        }
        let Some(next) = day.checked_add(1) else {
            break;
        };
        from = next;
    }
    Ok(())
}
