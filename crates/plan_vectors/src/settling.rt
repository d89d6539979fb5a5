// Settles the report of a case's plan.
use crate::asks::Ask;
use report::{FaultEntry, ReportDue};
use std::io;
use std::io::Write;

// What a text buffer holds before a report is written into it.
const BEFORE: u8 = b'#';

// The whole text buffer with a report in it.
fn print_report(rt: &HostRuntime, bytes: usize, text: &[u8]) -> io::Result<()> {
    println!(rt; "report {bytes}")?;
    rt.stdout().write_all(text)?;
    println!(rt; "")
}

fn print_waived(rt: &HostRuntime, due: ReportDue) -> io::Result<()> {
    println!(rt; "waived {}", due.waive())
}

// Hands the report back that was refused, unless that cannot be printed.
fn print_refused(rt: &HostRuntime, number: u8, due: ReportDue) -> io::Result<ReportDue> {
    match println!(rt; "refused {number}") {
        Ok(()) => Ok(due),
        Err(e) => {
            due.waive();
            Err(e)
        }
    }
}

// Writes a report into a text buffer of so many bytes, or hands it back.
fn write_report(
    rt: &HostRuntime,
    due: ReportDue,
    entries: &[FaultEntry],
    bytes: usize,
) -> io::Result<Option<ReportDue>> {
    let mut text = match Vec::from_elem(rt.alloc(), BEFORE, bytes) {
        Ok(text) => text,
        Err(e) => {
            due.waive();
            return Err(e.into());
        }
    };
    match due.write(entries, text.as_mut_slice()) {
        Ok(written) => {
            print_report(rt, written, text.as_slice())?;
            Ok(None)
        }
        Err((question, due)) => Ok(Some(print_refused(rt, question.number(), due)?)),
    }
}

// Does what is asked of a report due until it is settled, with so many places of the table lent, and waives it where nothing
// more is asked of it.
pub(crate) fn settle(
    rt: &HostRuntime,
    due: ReportDue,
    entries: &[FaultEntry],
    lent: usize,
    asks: &[Ask],
) -> io::Result<()> {
    let mut due = due;
    let mut lent = lent;
    for ask in asks {
        match ask {
            Ask::Lend(places) => lent = places.faults,
            Ask::Report(bytes) => {
                let front = &entries[..lent.min(entries.len())];
                match write_report(rt, due, front, *bytes)? {
                    Some(kept) => due = kept,
                    None => return Ok(()),
                }
            }
            _ => break,
        }
    }
    print_waived(rt, due)
}
