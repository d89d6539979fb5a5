// The calls of a case once more, made in one go.
use crate::asks::{Ask, Opening};
use crate::standing::{Standing, lend};
use events::RuleShelf;
use plan::{Plan, perform};
use runs::{Answer, Call};
use std::alloc::{AllocError, Global};
use table_memory::TableMemory;

// The call that is asked for, if it is one.
fn call_of(ask: &Ask) -> Option<Call<'_>> {
    match ask {
        Ask::Load(file) => Some(Call::Load(file.as_slice())),
        Ask::Seek(day) => Some(Call::Seek(*day)),
        Ask::Draw => Some(Call::Draw),
        _ => None,
    }
}

// The calls before whatever is none.
fn calls_of(heap: Global, asks: &[Ask]) -> Result<Vec<Call<'_>>, AllocError> {
    let mut calls = Vec::new(heap);
    for ask in asks {
        let Some(call) = call_of(ask) else {
            return Ok(calls);
        };
        calls.push(call)?;
    }
    Ok(calls)
}

// Whether a plan is refused with the question of this number when it is opened by `perform` too.
pub(crate) fn refused_as_well<S: RuleShelf>(
    heap: Global,
    shelf: &S,
    opening: Opening,
    number: u8,
) -> Result<bool, AllocError> {
    let mut memory = TableMemory::new(heap, opening.places)?;
    let mut tables = lend(&mut memory, opening.places);
    match perform(
        shelf,
        opening.first,
        opening.last,
        &mut tables,
        &[],
        &mut [],
    ) {
        Ok(_) => Ok(false),
        Err(question) => Ok(question.number() == number),
    }
}

// Whether a plan and its entries are as those that stand.
fn as_standing(standing: &Standing, plan: Plan, memory: &TableMemory) -> bool {
    let entries = usize::from(standing.faults);
    plan.mark() == standing.mark()
        && memory.faults.as_slice().get(..entries)
            == standing.memory.faults.as_slice().get(..entries)
        && plan.close().waive() == entries
}

// Whether the calls before whatever is none have the same answers when `perform` makes them, on other tables, and lead to the
// same mark and entries, if they were all that the standing plan answered.
fn same<S: RuleShelf>(
    heap: Global,
    shelf: &S,
    opening: Opening,
    calls: &[Call],
    standing: &Standing,
) -> Result<bool, AllocError> {
    let mut answers = Vec::from_elem(heap, Answer::NoMore, calls.len())?;
    let mut memory = TableMemory::new(heap, opening.places)?;
    let mut tables = lend(&mut memory, opening.places);
    let Opening { first, last, .. } = opening;
    match perform(
        shelf,
        first,
        last,
        &mut tables,
        calls,
        answers.as_mut_slice(),
    ) {
        Ok(plan) => Ok(
            standing.answers.as_slice().get(..calls.len()) == Some(answers.as_slice())
                && (calls.len() < standing.answers.len() || as_standing(standing, plan, &memory)),
        ),
        Err(_) => Ok(false),
    }
}

// How many calls were made again, and whether they were answered as before.
pub(crate) fn performed_as_well<S: RuleShelf>(
    heap: Global,
    shelf: &S,
    opening: Opening,
    asks: &[Ask],
    standing: &Standing,
) -> Result<(usize, bool), AllocError> {
    let calls = calls_of(heap, asks)?;
    let as_well = same(heap, shelf, opening, calls.as_slice(), standing)?;
    Ok((calls.len(), as_well))
}
