// A season at a glance: the lines of all files together, and what is wrong with their events.
ghost use Rattle.std.specs.Prelude.{◌≡◌};
ghost use Rattle.season.specs.Names.{name_of};

use crate::files::read_front;
use crate::opening::begin;
use crate::output::{say, say_answer};
use crate::standing::{Standing, ends_draws};
use answers::{advice_text, refusal_text};
use plan_commands::Sizes;
use report::FaultEntry;
use runs::{Answer, Call};
use std::io;

// Says why a file adds nothing.
fn say_left_out(rt: &HostRuntime, name: &[u8], reason: &str) -> io::Result<()> {
    let mut text = Vec::new(rt.alloc());
    text.extend_from_slice(name)?;
    text.extend_from_slice(b": ")?;
    text.extend_from_slice(reason.as_bytes())?;
    say(rt, text.as_slice())
}

// Loads a file. Whether it is accepted; if not, why is said.
fn load_named(rt: &HostRuntime, standing: &mut Standing, name: &[u8]) -> io::Result<bool> {
    let file = match read_front(rt, name) {
        Ok(file) => file,
        Err(unread) => {
            let reason = format!(in rt.alloc(); "{unread}\n")?;
            say_left_out(rt, name, reason.as_str())?;
            return Ok(false);
        }
    };
    match standing.make(&Call::Load(file.as_slice())) {
        Answer::Refused(refusal) => {
            let reason = refusal_text(rt.alloc(), refusal)?;
            say_left_out(rt, name, reason.as_str())?;
            Ok(false)
        }
        _ => Ok(true),
    }
}

// Loads files. The names of those that are accepted, in their order.
fn load_all<'a>(
    rt: &HostRuntime,
    standing: &mut Standing,
    names: &[&'a [u8]],
) -> io::Result<Vec<&'a [u8]>> {
    let mut accepted = Vec::new(rt.alloc());
    for name in names {
        if load_named(rt, standing, name)? {
            accepted.push(*name)?;
        }
    }
    Ok(accepted)
}

// Says each line that is owed.
fn say_lines(rt: &HostRuntime, standing: &mut Standing) -> io::Result<()> {
    for _ in 0..u64::MAX {
        let answer = standing.make(&Call::Draw);
        if ends_draws(answer) {
            break;
        }
        say_answer(rt, answer, standing.memory.series.as_slice())?;
    }
    Ok(())
}

// The name of the accepted file of this number, from 1.
fn name_of<'a>(accepted: &[&'a [u8]], number: u16) -> &'a [u8]
    ensures { result.now ≡ name_of accepted.now number }
{
    let number = usize::from(number);
    if number == 0 || number > accepted.len() {
        return b"?";
    }
    accepted[number - 1]
}

// Says what is wrong with the events that give no series, and what to do about it.
fn say_advice(rt: &HostRuntime, entries: &[FaultEntry], accepted: &[&[u8]]) -> io::Result<()> {
    for entry in entries {
        let name = name_of(accepted, entry.file);
        let text = advice_text(rt.alloc(), name, entry)?;
        say(rt, text.as_slice())?;
    }
    Ok(())
}

// Says all of the season over a window.
pub(crate) fn list_season(
    rt: &HostRuntime,
    first: u32,
    last: u32,
    names: &[&[u8]],
) -> io::Result<()> {
    let Some(mut standing) = begin(rt, first, last, Sizes::USUAL)? else {
        return Ok(());
    };
    let accepted = load_all(rt, &mut standing, names)?;
    say_lines(rt, &mut standing)?;
    let Standing { plan, mut memory } = standing;
    memory.faults.truncate(plan.close().waive());
    say_advice(rt, memory.faults.as_slice(), accepted.as_slice())
}
