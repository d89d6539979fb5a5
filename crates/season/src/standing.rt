// A plan that is open.
use crate::files::read_front;
use crate::output::{complain, say, say_answer};
use crate::shelf::SHELF;
use answers::mark_text;
use plan::{Plan, Tables};
use plan_commands::Draws;
use runs::{Answer, Call};
use std::io;
use table_memory::TableMemory;

// A plan with the memory of its tables.
#[derive(Drop)]
pub(crate) struct Standing {
    pub(crate) plan: Plan,
    pub(crate) memory: TableMemory,
}

impl Standing {
    // Makes a call on the plan.
    pub(crate) fn make(&mut self, call: &Call) -> Answer {
        let mut tables = Tables {
            series: self.memory.series.as_mut_slice(),
            faults: self.memory.faults.as_mut_slice(),
            queue: self.memory.queue.as_mut_slice(),
        };
        self.plan.make(&SHELF, &mut tables, call)
    }

    // Makes a call on the plan, and says its answer.
    fn tell(&mut self, rt: &HostRuntime, call: &Call) -> io::Result<Answer> {
        let answer = self.make(call);
        say_answer(rt, answer, self.memory.series.as_slice())?;
        Ok(answer)
    }

    // Loads the file of a name.
    pub(crate) fn load(&mut self, rt: &HostRuntime, number: u64, name: &[u8]) -> io::Result<()> {
        match read_front(rt, name) {
            Ok(file) => {
                self.tell(rt, &Call::Load(file.as_slice()))?;
                Ok(())
            }
            Err(unread) => complain(rt, number, &unread),
        }
    }

    pub(crate) fn seek(&mut self, rt: &HostRuntime, day: u32) -> io::Result<()> {
        self.tell(rt, &Call::Seek(day))?;
        Ok(())
    }

    // Draws so many lines, or those that there are.
    pub(crate) fn draw(&mut self, rt: &HostRuntime, draws: Draws) -> io::Result<()> {
        let most = match draws {
            Draws::Times(times) => u64::from(times),
            Draws::All => u64::MAX,
        };
        for _ in 0..most {
            if ends_draws(self.tell(rt, &Call::Draw)?) {
                break;
            }
        }
        Ok(())
    }

    pub(crate) fn mark(&self, rt: &HostRuntime) -> io::Result<()> {
        let text = mark_text(rt.alloc(), self.plan.mark())?;
        say(rt, text.as_slice())
    }
}

// Whether no more lines are drawn after an answer.
pub(crate) fn ends_draws(answer: Answer) -> bool {
    matches!(answer, Answer::NoMore | Answer::Refused(_))
}
