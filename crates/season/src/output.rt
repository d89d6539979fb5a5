// What the program writes.
use answers::{answer_text, refusal_text};
use runs::{Answer, Refusal};
use series::Series;
use std::fmt::Display;
use std::io;
use std::io::Write;

// Writes a text, which need not be UTF-8.
pub(crate) fn say(rt: &HostRuntime, text: &[u8]) -> io::Result<()> {
    rt.stdout().write_all(text)
}

// Says what a plan answers. The titles of drawn lines are those of the series in the table.
pub(crate) fn say_answer(rt: &HostRuntime, answer: Answer, series: &[Series]) -> io::Result<()> {
    let text = answer_text(rt.alloc(), answer, series)?;
    say(rt, text.as_slice())
}

// Says why a call is refused.
pub(crate) fn say_refusal(rt: &HostRuntime, refusal: Refusal) -> io::Result<()> {
    let text = refusal_text(rt.alloc(), refusal)?;
    say(rt, text.as_bytes())
}

// Says why the command of a line cannot be used.
pub(crate) fn complain(rt: &HostRuntime, number: u64, complaint: &impl Display) -> io::Result<()> {
    println!(rt; "line {number}: {complaint}")
}
