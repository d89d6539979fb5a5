// Runs what a case asks of plans, and prints each answer.
use crate::asks::{Ask, Opening, PlanCase};
use crate::performing::{performed_as_well, refused_as_well};
use crate::records::{print_lines, print_series};
use crate::settling::settle;
use crate::standing::Standing;
use case_lines::{OverShelf, over_shelf};
use events::RuleShelf;
use owed::Line;
use plan::Plan;
use report::{FaultEntry, fault_text};
use runs::{Answer, Made};
use std::io;
use std::io::Write;

fn as_well_or_not(as_well: bool) -> &'static str {
    if as_well { "as well" } else { "otherwise" }
}

fn print_answer(rt: &HostRuntime, answer: Answer) -> io::Result<()> {
    match answer {
        Answer::Loaded(made) => print!(rt; "loaded {} {}", made.series, made.faults),
        Answer::Sought(Line { day, series }) => print!(rt; "mark {day} {series:03}"),
        Answer::Drawn(Line { day, series }) => print!(rt; "{day} {series:03}"),
        Answer::NoMore => print!(rt; "no more"),
        Answer::Refused(refusal) => print!(rt; "refused {}", refusal.number()),
    }
}

// An answer, and where the mark stands then.
fn print_answered(rt: &HostRuntime, answer: Answer, mark: Line) -> io::Result<()> {
    print_answer(rt, answer)?;
    println!(rt; ", mark {} {:03}", mark.day, mark.series)
}

fn print_fault(rt: &HostRuntime, entry: &FaultEntry) -> io::Result<()> {
    print!(rt; "fault {:03} {:03} ", entry.file, entry.event)?;
    rt.stdout().write_all(&fault_text(entry.fault))?;
    println!(rt; "")
}

// The lines of the series past the first `from` that are after one mark and not after another.
fn print_passed<S: RuleShelf>(
    rt: &HostRuntime,
    shelf: &S,
    word: &str,
    standing: &Standing,
    from: u16,
    after: Line,
    upto: Line,
) -> io::Result<()> {
    for (k, series) in standing
        .memory
        .series
        .iter()
        .enumerate()
        .take(usize::from(standing.series))
    {
        let number = k + 1;
        if number > usize::from(from) {
            print_lines(rt, shelf, word, number as u16, series, after, upto)?;
        }
    }
    Ok(())
}

// The records and the entries that a file made, past those before it, and its lines at or before the mark.
fn print_loaded<S: RuleShelf>(
    rt: &HostRuntime,
    shelf: &S,
    first: u32,
    standing: &Standing,
    made: Made,
) -> io::Result<()> {
    let series = usize::from(standing.series);
    let faults = usize::from(standing.faults);
    let new_series = series.saturating_sub(usize::from(made.series));
    let new_faults = faults.saturating_sub(usize::from(made.faults));
    for (k, record) in standing
        .memory
        .series
        .iter()
        .enumerate()
        .take(series)
        .skip(new_series)
    {
        print_series(rt, k + 1, record)?;
    }
    for entry in standing.memory.faults.iter().take(faults).skip(new_faults) {
        print_fault(rt, entry)?;
    }
    let opened = Line {
        day: first,
        series: 0,
    };
    print_passed(
        rt,
        shelf,
        "late",
        standing,
        new_series as u16,
        opened,
        standing.mark(),
    )
}

// Makes a call and prints its answer and what follows from it. Answers whether what is asked is a call.
fn answer_call<S: RuleShelf>(
    rt: &HostRuntime,
    shelf: &S,
    first: u32,
    standing: &mut Standing,
    ask: &Ask,
) -> io::Result<bool> {
    let mark = standing.mark();
    let Some(answer) = standing.call(shelf, ask) else {
        return Ok(false);
    };
    standing.answers.push(answer)?;
    print_answered(rt, answer, standing.mark())?;
    match answer {
        Answer::Loaded(made) => {
            standing.series = standing.series.saturating_add(made.series);
            standing.faults = standing.faults.saturating_add(made.faults);
            print_loaded(rt, shelf, first, standing, made)?;
        }
        Answer::Sought(sought) => print_passed(rt, shelf, "jumped", standing, 0, mark, sought)?,
        _ => {}
    }
    Ok(true)
}

// Closes a plan and settles its report, after the calls were made again in one go.
fn close<S: RuleShelf>(
    rt: &HostRuntime,
    shelf: &S,
    opening: Opening,
    standing: Standing,
    calls: &[Ask],
    asks: &[Ask],
) -> io::Result<()> {
    let (again, as_well) = performed_as_well(rt.alloc(), shelf, opening, calls, &standing)?;
    println!(rt; "performed {again} {}", as_well_or_not(as_well))?;
    let Standing {
        plan,
        memory,
        lent,
        ..
    } = standing;
    println!(rt; "closed")?;
    settle(
        rt,
        plan.close(),
        memory.faults.as_slice(),
        lent.faults,
        asks,
    )
}

// Makes the calls on a plan that was just opened, and closes it.
fn run_opened<S: RuleShelf>(
    rt: &HostRuntime,
    shelf: &S,
    opening: Opening,
    plan: Plan,
    asks: &[Ask],
) -> io::Result<()> {
    let mut standing = Standing::of(rt.alloc(), plan, opening.places)?;
    for (i, ask) in asks.iter().enumerate() {
        match ask {
            Ask::Lend(places) => standing.lent = *places,
            Ask::Close => return close(rt, shelf, opening, standing, asks, &asks[i + 1..]),
            _ => if !answer_call(rt, shelf, opening.first, &mut standing, ask)? {
                break;
            },
        }
    }
    println!(rt; "not closed")
}

// Opens a plan and does what is asked of it.
fn open<S: RuleShelf>(
    rt: &HostRuntime,
    shelf: &S,
    opening: Opening,
    asks: &[Ask],
) -> io::Result<()> {
    match Plan::open(opening.first, opening.last) {
        Ok(plan) => {
            let Line { day, series } = plan.mark();
            println!(rt; "opened, mark {day} {series:03}")?;
            run_opened(rt, shelf, opening, plan, asks)
        }
        Err(question) => {
            let number = question.number();
            let as_well = refused_as_well(rt.alloc(), shelf, opening, number)?;
            println!(rt; "refused {number}, performed {}", as_well_or_not(as_well))
        }
    }
}

// Opens each plan, and does what is asked of it.
fn run_asks<S: RuleShelf>(rt: &HostRuntime, shelf: &S, asks: &[Ask]) -> io::Result<()> {
    for (i, ask) in asks.iter().enumerate() {
        if let Ask::Open(opening) = ask {
            open(rt, shelf, *opening, &asks[i + 1..])?;
        }
    }
    Ok(())
}

// What a case asks, which is done over its shelf.
#[derive(Drop)]
struct Run<'a> {
    rt: &'a HostRuntime,
    asks: &'a [Ask],
}

impl OverShelf for Run<'_> {
    type Done = io::Result<()>;

    fn over<S: RuleShelf>(&self, shelf: &S) -> io::Result<()> {
        run_asks(self.rt, shelf, self.asks)
    }
}

// Runs a case, if there is one.
pub(crate) fn run_case(rt: &HostRuntime, case: &Option<PlanCase>) -> io::Result<()> {
    let Some(case) = case else {
        return Ok(());
    };
    print!(rt; "plan ")?;
    rt.stdout().write_all(case.name())?;
    println!(rt; "")?;
    let run = Run {
        rt,
        asks: case.asks(),
    };
    match over_shelf(case.shelf(), &run) {
        Some(done) => done,
        None => println!(rt; "no shelf of that name"),
    }
}
