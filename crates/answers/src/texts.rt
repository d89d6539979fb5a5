// What a plan answers, as text.
ghost use Rattle.std.specs.Prelude.{◌≡◌, IfOk, string_bytes};
ghost use Rattle.answers.specs.Answers.{loaded_text, closed_text, refusal_text, AnswerText};

use crate::marks::{drawn_text, mark_text};
use runs::{Answer, Made, Refusal};
use series::Series;
use std::alloc::{AllocError, Global};

// How many series and fault entries a file made.
fn loaded_text(heap: Global, made: Made) -> Result<String, AllocError>
    ensures { IfOk result (λ text. string_bytes text ≡ loaded_text made) }
{
    let series = made.series;
    let faults = made.faults;
    format!(in heap; "loaded {series} series {faults} faults\n")
}

// The question that a call fails.
pub fn refusal_text(heap: Global, refusal: Refusal) -> Result<String, AllocError>
    ensures { IfOk result (λ text. string_bytes text ≡ refusal_text refusal) }
{
    let number = refusal.number();
    format!(in heap; "refused {number} {refusal}\n")
}

// How many faults are due when a plan is closed.
pub fn closed_text(heap: Global, faults: usize) -> Result<String, AllocError>
    ensures { IfOk result (λ text. string_bytes text ≡ closed_text faults) }
{
    format!(in heap; "closed {faults} faults due\n")
}

// What a plan answers. The titles of drawn lines are those of the series in the table.
pub fn answer_text(heap: Global, answer: Answer, series: &[Series]) -> Result<Vec<u8>, AllocError>
    ensures { IfOk result (λ text. AnswerText series.now answer text.items) }
{
    match answer {
        Answer::Loaded(made) => Ok(loaded_text(heap, made)?.into_bytes()),
        Answer::Sought(mark) => mark_text(heap, mark),
        Answer::Drawn(line) => drawn_text(heap, line, series),
        Answer::NoMore => Ok(format!(in heap; "no more\n")?.into_bytes()),
        Answer::Refused(refusal) => Ok(refusal_text(heap, refusal)?.into_bytes()),
    }
}
