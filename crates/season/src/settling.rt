// A report that is due.
use crate::output::{say, say_refusal};
use crate::session::Session;
use crate::standing::Standing;
use answers::closed_text;
use report::ReportDue;
use std::io;
use table_memory::TableMemory;

// The bytes of a fault's line in the report.
const WIDTH: usize = 19;

// A report that is due, with the memory of its plan's tables. It is no `Drop`, so it is passed on by value until it is written
// or waived, beside what came of writing an answer.
pub(crate) struct Pending {
    due: ReportDue,
    memory: TableMemory,
}

fn say_closed(rt: &HostRuntime, faults: usize) -> io::Result<()> {
    let text = closed_text(rt.alloc(), faults)?;
    say(rt, text.as_bytes())
}

impl Pending {
    // Closes a plan.
    pub(crate) fn of(rt: &HostRuntime, standing: Standing) -> (Pending, io::Result<()>) {
        let Standing { plan, memory } = standing;
        let due = plan.close();
        let said = say_closed(rt, due.faults());
        (Pending { due, memory }, said)
    }

    // Writes the report into a text, and says it; or says why it is refused, and it is still due.
    fn write(self, rt: &HostRuntime, mut text: Vec<u8>) -> (Session, io::Result<()>) {
        let Pending { due, memory } = self;
        match due.write(memory.faults.as_slice(), text.as_mut_slice()) {
            Ok(written) => {
                text.truncate(written);
                (Session::Idle, say(rt, text.as_slice()))
            }
            Err((question, due)) => (
                Session::Due(Pending { due, memory }),
                say_refusal(rt, question.into()),
            ),
        }
    }

    // Writes the report into a text of so many bytes, or of just as many as it has.
    pub(crate) fn report(self, rt: &HostRuntime, size: Option<usize>) -> (Session, io::Result<()>) {
        let size = size.unwrap_or(self.due.faults().saturating_mul(WIDTH));
        match Vec::from_elem(rt.alloc(), 0, size) {
            Ok(text) => self.write(rt, text),
            Err(e) => (Session::Due(self), Err(e.into())),
        }
    }

    pub(crate) fn waive(self, rt: &HostRuntime) -> io::Result<()> {
        let Pending {
            due,
            memory: _memory,
        } = self;
        due.waive();
        println!(rt; "waived")
    }
}
