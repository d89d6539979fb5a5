// The line of an event: what becomes of it.
ghost use Rattle.std.specs.Prelude.{◌≡◌, IfOk, Ok, Err, ◌++◌, codes, string_bytes};
ghost use Rattle.calendar.specs.Printing.{padded};
ghost use Rattle.refusals.specs.Words.{words};
ghost use Rattle.listing.specs.Texts.{title_text, verdict_in, verdict_text, event_line};

use icalendar::Fault;
use refusals::Failed;
use report::fault_text;
use series::Series;
use short_lists::ShortList;
use std::alloc::{AllocError, Global};

// A title after a blank. It is a crew's own bytes, which need not be text.
fn title_text(heap: Global, title: &Option<ShortList<u8, 32>>) -> Result<Vec<u8>, AllocError>
    ensures { IfOk result (λ text. text.items ≡ title_text title.now) }
{
    let mut text = Vec::new(heap);
    if let Some(title) = title {
        text.push(b' ')?;
        text.extend_from_slice(title.items())?;
    }
    Ok(text)
}

// The words of the question that an event fails, after a blank.
fn question_text(heap: Global, question: Failed) -> Result<String, AllocError>
    ensures { IfOk result (λ text. string_bytes text ≡ codes " " ++ words question) }
{
    format!(in heap; " {question}")
}

// What is said of a fault.
fn fault_said(heap: Global, fault: &Fault) -> Result<Vec<u8>, AllocError>
    ensures { IfOk result (λ text. text.items ≡ verdict_text (Err fault.now)) }
{
    let mut text = format!(in heap; "fault ")?.into_bytes();
    text.extend_from_slice(&fault_text(*fault))?;
    text.extend_from_slice(question_text(heap, fault.failed)?.as_bytes())?;
    Ok(text)
}

// What becomes of an event.
fn verdict_text(heap: Global, verdict: &Result<Series, Fault>) -> Result<Vec<u8>, AllocError>
    ensures { IfOk result (λ text. text.items ≡ verdict_text (verdict_in verdict.now)) }
{
    match verdict {
        Ok(series) => {
            let mut text = format!(in heap; "series")?.into_bytes();
            text.extend_from_slice(title_text(heap, &series.title)?.as_slice())?;
            Ok(text)
        }
        Err(fault) => fault_said(heap, fault),
    }
}

// How the line of an event begins.
fn event_head(heap: Global, number: usize) -> Result<String, AllocError>
    ensures { IfOk result (λ text. string_bytes text ≡ codes "event " ++ (padded 3 number ++ codes " ")) }
{
    format!(in heap; "event {number:03} ")
}

// The line of an event.
pub(crate) fn event_line(
    heap: Global,
    number: usize,
    verdict: &Result<Series, Fault>,
) -> Result<Vec<u8>, AllocError>
    ensures { IfOk result (λ line. line.items ≡ event_line (number, verdict_in verdict.now)) }
{
    let mut line = event_head(heap, number)?.into_bytes();
    line.extend_from_slice(verdict_text(heap, verdict)?.as_slice())?;
    line.push(b'\n')?;
    Ok(line)
}
