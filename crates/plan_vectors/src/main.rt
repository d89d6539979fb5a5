// Runs cases of whole plans from standard input: a line gives a case's name and shelf, and those after it what is asked of plans
// over it. Each answer is printed, with the records and the entries that the tables hold then.
#![tactic(auto)]

mod asks;
mod cases;
mod performing;
mod records;
mod settling;
mod standing;

use asks::{PlanCase, plan_on};
use cases::run_case;
use std::io;
use std::io::{BufRead, BufReader, Write};

// Takes in a line. One that begins a case has the one before it run.
fn take_line(rt: &HostRuntime, case: &mut Option<PlanCase>, line: &[u8]) -> io::Result<()> {
    if let Some(next) = plan_on(rt.alloc(), line)? {
        run_case(rt, case)?;
        *case = Some(next);
        return Ok(());
    }
    if let Some(case) = case {
        if case.take_line(rt.alloc(), line)? {
            return Ok(());
        }
    }
    rt.stdout().write_all(line)?;
    println!(rt; ": asks nothing of a plan")
}

fn main(rt: HostRuntime) -> io::Result<()> {
    let mut case = None;
    for line in BufReader::new(rt.alloc(), rt.stdin())?.split(rt.alloc(), b'\n') {
        take_line(&rt, &mut case, line?.as_slice())?;
    }
    run_case(&rt, &case)
}
