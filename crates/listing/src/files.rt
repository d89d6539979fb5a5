// What is said of a whole file.
ghost use Rattle.std.specs.Prelude.{◌≡◌, IfOk, is_ok, is_err, string_bytes};
ghost use Rattle.std.specs.List.{All, count_by};
ghost use Rattle.series.specs.Record.{Ready};
ghost use Rattle.listing.specs.Lines.{Lines, numbered};
ghost use Rattle.listing.specs.Texts.{verdict_in, verdicts_in, refusal, totals, Said, Body, FileText};

use crate::event_days::event_days;
use crate::verdicts::event_line;
use commands::FileQuery;
use events::RuleShelf;
use icalendar::{Fault, ReadError, read_file};
use refusals::FileQuestion;
use series::Series;
use std::alloc::{AllocError, Global};

// Why a file is refused.
fn refusal(heap: Global, question: FileQuestion) -> Result<String, AllocError>
    ensures { IfOk result (λ text. string_bytes text ≡ refusal question) }
{
    let number = question.number();
    format!(in heap; "refused {number} {question}\n")
}

// How many results are well. Generic, since the check would unfold what stands in a series.
fn count_ok<T, E>(results: &[Result<T, E>]) -> usize
    ensures { result ≡ count_by is_ok results.now }
{
    results.iter().filter(|one| one.is_ok()).count()
}

// How many are not.
fn count_err<T, E>(results: &[Result<T, E>]) -> usize
    ensures { result ≡ count_by is_err results.now }
{
    results.iter().filter(|one| one.is_err()).count()
}

// How many events are accepted and how many are not.
fn totals(heap: Global, verdicts: &[Result<Series, Fault>]) -> Result<String, AllocError>
    ensures { IfOk result (λ text. string_bytes text ≡ totals verdicts.now) }
{
    let series = count_ok(verdicts);
    let faults = count_err(verdicts);
    format!(in heap; "file {series} series {faults} faults\n")
}

// What is said of an event.
fn said<S: RuleShelf>(
    heap: Global,
    shelf: &S,
    query: FileQuery,
    number: usize,
    verdict: &Result<Series, Fault>,
) -> Result<Vec<u8>, AllocError>
    requires { IfOk verdict.now (Ready (S.Shelf.held shelf.now)) }
    ensures { IfOk result (λ text. Said (S.Shelf.held shelf.now) query (number, verdict_in verdict.now) text.items) }
{
    match query {
        FileQuery::Check => event_line(heap, number, verdict),
        FileQuery::Days { first, last } => event_days(heap, shelf, number, verdict, first, last),
    }
}

// What is said of each event, one after another.
fn each_said<S: RuleShelf>(
    heap: Global,
    shelf: &S,
    query: FileQuery,
    verdicts: &[Result<Series, Fault>],
) -> Result<Vec<u8>, AllocError>
    requires { All (λ verdict. IfOk verdict (Ready (S.Shelf.held shelf.now))) verdicts.now }
    ensures { IfOk result (λ text. Lines (Said (S.Shelf.held shelf.now) query) (numbered 1 (verdicts_in verdicts.now)) text.items) }
{
    let mut text = Vec::new(heap);
    for (i, verdict) in verdicts.iter().enumerate() {
        text.extend_from_slice(said(heap, shelf, query, i + 1, verdict)?.as_slice())?;
    }
    Ok(text)
}

// What is said of a file that is read: of each of its events, and how many are accepted.
fn body<S: RuleShelf>(
    heap: Global,
    shelf: &S,
    query: FileQuery,
    verdicts: &[Result<Series, Fault>],
) -> Result<Vec<u8>, AllocError>
    requires { All (λ verdict. IfOk verdict (Ready (S.Shelf.held shelf.now))) verdicts.now }
    ensures { IfOk result (λ text. Body (Said (S.Shelf.held shelf.now) query) (verdicts_in verdicts.now) text.items) }
{
    let mut text = each_said(heap, shelf, query, verdicts)?;
    text.extend_from_slice(totals(heap, verdicts)?.as_bytes())?;
    Ok(text)
}

// What is said of a file: the answer to what is asked of it, or why it is refused.
pub fn file_text<S: RuleShelf>(
    heap: Global,
    shelf: &S,
    query: FileQuery,
    file: &[u8],
) -> Result<Vec<u8>, AllocError>
    ensures { IfOk result (λ text. FileText (S.Shelf.held shelf.now) query file.now text.items) }
{
    match read_file(heap, shelf, file, 1) {
        Ok(verdicts) => body(heap, shelf, query, verdicts.as_slice()),
        Err(ReadError::Refused(question)) => Ok(refusal(heap, question)?.into_bytes()),
        Err(ReadError::OutOfMemory(e)) => Err(e),
    }
}
