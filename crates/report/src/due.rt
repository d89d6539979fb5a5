// The report due.
ghost use Rattle.std.specs.Prelude.{◌≡◌, ◌*◌, ◌+◌, ◌≤◌, ◌++◌, IfOk, IfErr, None, Some, take, drop, length};
ghost use Rattle.report.specs.Lines.{entry_line};
ghost use Rattle.report.specs.Reports.{report, first_failed};

use crate::entries::{FaultEntry, entry_line};
use refusals::PlanQuestion;
use std::marker::Model;

// The bytes of an entry's line.
const WIDTH: usize = 19;

// A report that is due. It is no `Drop`, so that whoever has it writes it or waives it. Contracts see how many faults it has.
pub struct ReportDue {
    faults: usize,
}

impl Model for ReportDue {
    ghost use Rattle.std.specs.Prelude.{ℕ};

    ghost Value = { ℕ };

    ghost view = { λ due. due.faults };
}

// Writes an entry's line into a text from a place on.
fn write_line(entry: &FaultEntry, text: &mut [u8], at: usize)
    requires { at + 19 ≤ length text.old }
    ensures { text.new ≡ take at text.old ++ (entry_line entry.now ++ drop (at + 19) text.old) }
{
    text[at..at + WIDTH].copy_from_slice(&entry_line(entry));
}

// Writes the lines of entries into the front of a text.
fn write_lines(entries: &[FaultEntry], text: &mut [u8]) -> usize
    requires { 19 * length entries.now ≤ length text.old }
    ensures length { result ≡ 19 * length entries.now }
    ensures text { text.new ≡ report entries.now ++ drop (19 * length entries.now) text.old }
{
    let mut at = 0;
    for entry in entries {
        write_line(entry, text, at);
        at += WIDTH;
    }
    at
}

impl ReportDue {
    // A report of so many faults.
    pub fn of(faults: usize) -> ReportDue
        ensures { result ≡ faults }
    {
        ReportDue { faults }
    }

    // How many faults it has.
    pub fn faults(&self) -> usize
        ensures { result ≡ self.now }
    {
        self.faults
    }

    // Settles it with no report, and answers how many faults it had.
    pub fn waive(self) -> usize
        ensures { result ≡ self }
    {
        let ReportDue { faults: waived } = self;
        waived
    }

    // Writes it into the front of the text, from the fault entries in use, and answers how many bytes it has; or hands itself
    // back with the first question that fails, and the text stays.
    pub fn write(
        self,
        entries: &[FaultEntry],
        text: &mut [u8],
    ) -> Result<usize, (PlanQuestion, ReportDue)>
        ensures passed { IfOk result (λ n. first_failed self (length entries.now) (length text.old) ≡ None) }
        ensures written { IfOk result (λ n. text.new ≡ report (take self entries.now) ++ drop n text.old) }
        ensures size { IfOk result (λ n. n ≡ 19 * self) }
        ensures refused { IfErr result (λ e. first_failed self (length entries.now) (length text.old) ≡ Some e.0) }
        ensures kept { IfErr result (λ e. (e.1 ≡ self) × (text.new ≡ text.old)) }
    {
        if entries.len() < self.faults {
            return Err((PlanQuestion::FullTables, self));
        }
        if text.len() / WIDTH < self.faults {
            return Err((PlanQuestion::RoomForReport, self));
        }
        let ReportDue { faults } = self;
        Ok(write_lines(&entries[..faults], text))
    }
}
