// A plan with the memory of its tables, and the calls on it.
use crate::asks::Ask;
use events::RuleShelf;
use owed::Line;
use plan::{Plan, Tables};
use runs::{Answer, Places};
use std::alloc::{AllocError, Global};
use table_memory::TableMemory;

#[derive(Drop)]
pub(crate) struct Standing {
    pub(crate) plan: Plan,
    pub(crate) memory: TableMemory,
    // the places that are lent
    pub(crate) lent: Places,
    // how many series and fault entries the loads answered
    pub(crate) series: u16,
    pub(crate) faults: u16,
    pub(crate) answers: Vec<Answer>,
}

// The front of a table.
fn front<T>(table: &mut [T], places: usize) -> &mut [T] {
    let end = places.min(table.len());
    &mut table[..end]
}

// Lends so many places of each table.
pub(crate) fn lend(memory: &mut TableMemory, lent: Places) -> Tables<'_, '_, '_> {
    Tables {
        series: front(memory.series.as_mut_slice(), lent.series),
        faults: front(memory.faults.as_mut_slice(), lent.faults),
        queue: front(memory.queue.as_mut_slice(), lent.queue),
    }
}

fn load<S: RuleShelf>(plan: &mut Plan, shelf: &S, tables: &mut Tables, file: &[u8]) -> Answer {
    match plan.load(shelf, tables, file) {
        Ok(made) => Answer::Loaded(made),
        Err(refusal) => Answer::Refused(refusal),
    }
}

fn seek(plan: &mut Plan, tables: &mut Tables, day: u32) -> Answer {
    match plan.seek(tables, day) {
        Ok(mark) => Answer::Sought(mark),
        Err(question) => Answer::Refused(question.into()),
    }
}

fn draw<S: RuleShelf>(plan: &mut Plan, shelf: &S, tables: &mut Tables) -> Answer {
    match plan.draw(shelf, tables) {
        Ok(Some(line)) => Answer::Drawn(line),
        Ok(None) => Answer::NoMore,
        Err(question) => Answer::Refused(question.into()),
    }
}

impl Standing {
    // A plan that was just opened, with tables of so many places.
    pub(crate) fn of(heap: Global, plan: Plan, places: Places) -> Result<Standing, AllocError> {
        Ok(Standing {
            plan,
            memory: TableMemory::new(heap, places)?,
            lent: places,
            series: 0,
            faults: 0,
            answers: Vec::new(heap),
        })
    }

    pub(crate) fn mark(&self) -> Line {
        self.plan.mark()
    }

    // Makes a call, if it is one that a standing plan answers.
    pub(crate) fn call<S: RuleShelf>(&mut self, shelf: &S, ask: &Ask) -> Option<Answer> {
        let mut tables = lend(&mut self.memory, self.lent);
        match ask {
            Ask::Load(file) => Some(load(&mut self.plan, shelf, &mut tables, file.as_slice())),
            Ask::Seek(day) => Some(seek(&mut self.plan, &mut tables, *day)),
            Ask::Draw => Some(draw(&mut self.plan, shelf, &mut tables)),
            _ => None,
        }
    }
}
