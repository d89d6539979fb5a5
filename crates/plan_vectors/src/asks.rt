// A plan's case: a name, that of a shelf, and what is asked of plans over it, one thing a line.
use case_lines::{first_word, plain_bytes};
use commands::Numbers;
use plan_commands::{Draws, PlanCommand, Sizes, read_plan_command};
use runs::Places;
use std::alloc::{AllocError, Global};

// The window that a plan is opened over, and the places of its tables.
#[derive(Clone, Copy)]
pub(crate) struct Opening {
    pub(crate) first: u32,
    pub(crate) last: u32,
    pub(crate) places: Places,
}

// What a line asks.
#[derive(Drop)]
pub(crate) enum Ask {
    // a plan
    Open(Opening),
    // that no more than so many places of the tables are lent from here on
    Lend(Places),
    // the bytes of a file
    Load(Vec<u8>),
    Seek(u32),
    Draw,
    Close,
    // into a text buffer of so many bytes
    Report(usize),
    Waive,
}

#[derive(Drop)]
pub(crate) struct PlanCase {
    name: Vec<u8>,
    shelf: Vec<u8>,
    asks: Vec<Ask>,
}

impl PlanCase {
    pub(crate) fn name(&self) -> &[u8] {
        self.name.as_slice()
    }

    pub(crate) fn shelf(&self) -> &[u8] {
        self.shelf.as_slice()
    }

    pub(crate) fn asks(&self) -> &[Ask] {
        self.asks.as_slice()
    }
}

// The case that a line begins, if it begins one: `plan NAME SHELF`.
pub(crate) fn plan_on(heap: Global, line: &[u8]) -> Result<Option<PlanCase>, AllocError> {
    let Some((name, shelf)) = line
        .strip_prefix(b"plan ")
        .and_then(|rest| first_word(rest))
    else {
        return Ok(None);
    };
    Ok(Some(PlanCase {
        name: Vec::from_slice(heap, name)?,
        shelf: Vec::from_slice(heap, shelf)?,
        asks: Vec::new(heap),
    }))
}

fn places_of(sizes: Sizes) -> Places {
    Places {
        series: sizes.series,
        faults: sizes.faults,
        queue: sizes.queue,
    }
}

// What a command asks, if it is of those that cases have; draws stand on lines of their own.
fn asked(command: PlanCommand) -> Option<Ask> {
    match command {
        PlanCommand::Open { first, last, sizes } => Some(Ask::Open(Opening {
            first,
            last,
            places: places_of(sizes),
        })),
        PlanCommand::Seek(day) => Some(Ask::Seek(day)),
        PlanCommand::Draw(Draws::Times(1)) => Some(Ask::Draw),
        PlanCommand::Close => Some(Ask::Close),
        PlanCommand::Report(Some(bytes)) => Some(Ask::Report(bytes)),
        PlanCommand::Waive => Some(Ask::Waive),
        _ => None,
    }
}

// What the words of a line ask.
fn command_on(heap: Global, line: &[u8]) -> Result<Option<Ask>, AllocError> {
    let words = line.split(|b| *b == b' ').collect::<Vec<&[u8]>>(heap)?;
    match read_plan_command(words.as_slice()) {
        Some(Ok(command)) => Ok(asked(command)),
        _ => Ok(None),
    }
}

// The places on a line `lend SERIES FAULTS QUEUE`.
fn lent_on(heap: Global, line: &[u8]) -> Result<Option<Ask>, AllocError> {
    let words = line.split(|b| *b == b' ').collect::<Vec<&[u8]>>(heap)?;
    let [_, series, faults, queue] = words.as_slice() else {
        return Ok(None);
    };
    Ok(read_places(series, faults, queue).map(Ask::Lend))
}

fn read_places(series: &[u8], faults: &[u8], queue: &[u8]) -> Option<Places> {
    Some(Places {
        series: read_size(series)?,
        faults: read_size(faults)?,
        queue: read_size(queue)?,
    })
}

fn read_size(word: &[u8]) -> Option<usize> {
    Some(Numbers::Digits.read(word, u32::MAX)? as usize)
}

// What a line asks, if it asks something.
fn ask_on(heap: Global, line: &[u8]) -> Result<Option<Ask>, AllocError> {
    if let Some(text) = line.strip_prefix(b"load ") {
        return Ok(plain_bytes(heap, text)?.map(Ask::Load));
    }
    if line.starts_with(b"lend ") {
        return lent_on(heap, line);
    }
    command_on(heap, line)
}

impl PlanCase {
    // Takes in what a line asks. Answers whether it asks something.
    pub(crate) fn take_line(&mut self, heap: Global, line: &[u8]) -> Result<bool, AllocError> {
        match ask_on(heap, line)? {
            Some(ask) => {
                self.asks.push(ask)?;
                Ok(true)
            }
            None => Ok(false),
        }
    }
}
