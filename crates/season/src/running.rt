// Running a script.
use crate::opening::places_of;
use crate::output::{complain, say_answer, say_refusal};
use crate::script::{Script, Step, calls_of, read_script};
use crate::shelf::SHELF;
use crate::standing::{Standing, ends_draws};
use plan::{Tables, perform};
use runs::Answer;
use series::Series;
use std::io;
use table_memory::TableMemory;

// Says the answers of a step, of draws up to the first that tells that there are no more.
fn say_answers(rt: &HostRuntime, answers: &[Answer], series: &[Series]) -> io::Result<()> {
    for answer in answers {
        say_answer(rt, *answer, series)?;
        if ends_draws(*answer) {
            break;
        }
    }
    Ok(())
}

// Says the answers of steps, one after another.
fn say_steps(
    rt: &HostRuntime,
    steps: &[Step],
    answers: &[Answer],
    series: &[Series],
) -> io::Result<()> {
    let mut rest = answers;
    for step in steps {
        let (own, others) = rest.split_at(step.call_count().min(rest.len()));
        say_answers(rt, own, series)?;
        rest = others;
    }
    Ok(())
}

// Makes all calls of a script in one go, and says their answers.
fn perform_script(rt: &HostRuntime, script: &Script) -> io::Result<Option<Standing>> {
    let steps = script.steps.as_slice();
    let calls = calls_of(rt.alloc(), steps)?;
    let mut answers = Vec::from_elem(rt.alloc(), Answer::NoMore, calls.len())?;
    let mut memory = TableMemory::new(rt.alloc(), places_of(script.sizes))?;
    let mut tables = Tables {
        series: memory.series.as_mut_slice(),
        faults: memory.faults.as_mut_slice(),
        queue: memory.queue.as_mut_slice(),
    };
    match perform(
        &SHELF,
        script.first,
        script.last,
        &mut tables,
        calls.as_slice(),
        answers.as_mut_slice(),
    ) {
        Ok(plan) => {
            println!(rt; "opened")?;
            say_steps(rt, steps, answers.as_slice(), memory.series.as_slice())?;
            Ok(Some(Standing { plan, memory }))
        }
        Err(question) => {
            say_refusal(rt, question.into())?;
            Ok(None)
        }
    }
}

// Runs the script of a name: all of it is read first, and where something is wrong there, nothing is performed.
pub(crate) fn run(rt: &HostRuntime, number: u64, name: &[u8]) -> io::Result<Option<Standing>> {
    match read_script(rt, name) {
        Ok(script) => perform_script(rt, &script),
        Err(fault) => {
            complain(rt, number, &fault)?;
            Ok(None)
        }
    }
}
