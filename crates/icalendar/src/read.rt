// A whole file: what becomes of each of its events.
ghost use Rattle.std.specs.Prelude.{◌≡◌, IfOk};
ghost use Rattle.icalendar.specs.Verdicts.{verdicts};
ghost use Rattle.icalendar.specs.Read.{AllSay, Reads};
ghost use Rattle.icalendar.specs.declared.read.ReadError.TheVariants.{Refused, OutOfMemory};

use crate::fault::Fault;
use crate::file::check_file;
use crate::verdict::read_event;
use events::RuleShelf;
use refusals::FileQuestion;
use series::Series;
use std::alloc::{AllocError, Global};
use vevent::FileEvents;

// Why a file is not read.
#[derive(Clone, Copy, Debug, PartialEq, Eq)]
pub enum ReadError {
    // it fails this question first
    Refused(FileQuestion),
    OutOfMemory(AllocError),
}

impl From<FileQuestion> for ReadError {
    ghost from_gives = { λ question e. e ≡ Refused question };

    fn from(question: FileQuestion) -> ReadError {
        ReadError::Refused(question)
    }
}

impl From<AllocError> for ReadError {
    ghost from_gives = { λ memory e. e ≡ OutOfMemory memory };

    fn from(memory: AllocError) -> ReadError {
        ReadError::OutOfMemory(memory)
    }
}

// What becomes of each event, in their order. The shelf and the number go together here, in `read_file` and in
// `read_event`: a struct of them would be no plainer, as each call adds something of its own.
fn read_events<S: RuleShelf>(
    heap: Global,
    shelf: &S,
    file: &[u8],
    number: u16,
) -> Result<Vec<Result<Series, Fault>>, AllocError>
    ensures { IfOk result (λ v. AllSay (S.Shelf.held shelf.now) v.items (verdicts (S.Shelf.held shelf.now) number file.now)) }
{
    let mut found = Vec::new(heap);
    // As `extend` of a `map` the proof does not close: the library's lemmas of `map` want an equation of what the
    // closure gives, and what `read_event` gives is said by a relation.
    for event in FileEvents::of(file) {
        found.push(read_event(shelf, &event, number))?;
    }
    Ok(found)
}

// What becomes of each event of the file of this number.
pub fn read_file<S: RuleShelf>(
    heap: Global,
    shelf: &S,
    file: &[u8],
    number: u16,
) -> Result<Vec<Result<Series, Fault>>, ReadError>
    ensures { Reads (S.Shelf.held shelf.now) number file.now result }
{
    check_file(file)?;
    Ok(read_events(heap, shelf, file, number)?)
}
