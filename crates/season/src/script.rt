// Scripts: a plan to open and what is done with it then, with the files that it loads.
ghost use Rattle.std.specs.Prelude.{◌≡◌, ◌++◌, IfOk, map, length, replicate};
ghost use Rattle.std.specs.List.{flat_map};
ghost use Rattle.runs.specs.Runs.{requested, a_draw};
ghost use Rattle.season.specs.Scripts.{asked};

use crate::files::read_front;
use crate::misfit::Misfit;
use crate::script_fault::{LineFault, ScriptFault};
use crate::typed::{command_in, typed_words};
use plan_commands::{ScriptLine, Sizes, read_script_line};
use runs::Call;
use std::alloc::{AllocError, Global};
use std::str;

// The most bytes that a script may have, as many as a file.
const MOST_BYTES: usize = 60_000;

// What is done with a plan that is open.
#[derive(Drop)]
pub(crate) enum Step {
    // the file of these bytes is loaded
    Load(Vec<u8>),
    Seek(u32),
    // so many lines are drawn
    Draw(u32),
}

impl Step {
    // How many calls it is.
    pub(crate) fn call_count(&self) -> usize
        ensures { result ≡ length (asked self.now) }
    {
        match self {
            Step::Load(_) | Step::Seek(_) => 1,
            Step::Draw(times) => *times as usize,
        }
    }
}

// A script that was read: a plan over a window, with tables of these sizes, and its steps.
#[derive(Drop)]
pub(crate) struct Script {
    pub(crate) first: u32,
    pub(crate) last: u32,
    pub(crate) sizes: Sizes,
    pub(crate) steps: Vec<Step>,
}

// The step that a line is, with the bytes of the file that it names.
fn read_step(rt: &HostRuntime, line: ScriptLine) -> Result<Step, LineFault> {
    match line {
        ScriptLine::Open { .. } => Err(LineFault::State(Misfit::OpenPlan)),
        ScriptLine::Load(name) => Ok(Step::Load(read_front(rt, name)?)),
        ScriptLine::Seek(day) => Ok(Step::Seek(day)),
        ScriptLine::Draw(times) => Ok(Step::Draw(times)),
    }
}

// The script with a line more at its end.
fn with_line(rt: &HostRuntime, script: Option<Script>, line: &str) -> Result<Script, LineFault> {
    let words = typed_words(rt.alloc(), line)?;
    let line = read_script_line(words.as_slice())?;
    match (script, line) {
        (None, ScriptLine::Open { first, last, sizes }) => Ok(Script {
            first,
            last,
            sizes,
            steps: Vec::new(rt.alloc()),
        }),
        (None, _) => Err(LineFault::State(Misfit::NoPlan)),
        (Some(mut script), line) => {
            script.steps.push(read_step(rt, line)?)?;
            Ok(script)
        }
    }
}

// The script of a text.
fn script_of(rt: &HostRuntime, text: &str) -> Result<Script, ScriptFault> {
    let mut script = None;
    for (place, line) in text.lines().enumerate() {
        if let Some(command) = command_in(line) {
            match with_line(rt, script, command) {
                Ok(longer) => script = Some(longer),
                Err(fault) => return Err(ScriptFault::Line(place.saturating_add(1), fault)),
            }
        }
    }
    script.ok_or(ScriptFault::Empty)
}

// Reads a script, and the files that it names.
pub(crate) fn read_script(rt: &HostRuntime, name: &[u8]) -> Result<Script, ScriptFault> {
    let bytes = read_front(rt, name).map_err(ScriptFault::Unread)?;
    if bytes.len() > MOST_BYTES {
        return Err(ScriptFault::TooLarge);
    }
    match str::from_utf8(bytes.as_slice()) {
        Ok(text) => script_of(rt, text),
        Err(_) => Err(ScriptFault::NotText),
    }
}

// Adds so many draws.
fn add_draws(calls: &mut Vec<Call>, times: u32) -> Result<(), AllocError>
    ensures { IfOk result (λ _. map requested calls.new.items ≡ map requested calls.old.items ++ replicate times a_draw) }
{
    calls.resize(calls.len() + times as usize, Call::Draw)
}

// Adds the calls of a step.
fn add_calls<'a>(calls: &mut Vec<Call<'a>>, step: &'a Step) -> Result<(), AllocError>
    ensures { IfOk result (λ _. map requested calls.new.items ≡ map requested calls.old.items ++ asked step.now) }
{
    match step {
        Step::Load(file) => calls.push(Call::Load(file.as_slice()))?,
        Step::Seek(day) => calls.push(Call::Seek(*day))?,
        Step::Draw(times) => add_draws(calls, *times)?,
    }
    Ok(())
}

// The calls of steps, one after another.
pub(crate) fn calls_of<'a>(heap: Global, steps: &'a [Step]) -> Result<Vec<Call<'a>>, AllocError>
    ensures { IfOk result (λ calls. map requested calls.items ≡ flat_map asked steps.now) }
{
    let mut calls = Vec::new(heap);
    for step in steps {
        add_calls(&mut calls, step)?;
    }
    Ok(calls)
}
