// The arguments of a command on a plan.
ghost use Rattle.std.specs.Prelude.{◌≡◌, map};
ghost use Rattle.plan_commands.specs.Arguments.{window_read, size_read, sizes_read, usual_read, sized_read, opening_read, bytes_read, draws_read};

use crate::{Draws, PlanComplaint, Sizes};
use commands::Numbers;
use days::digits::read_date;

// The most that a table size may be.
const MOST_PLACES: u32 = 9999;

// The most that a number of draws, or of bytes, may be.
const MOST: u32 = 1_000_000;

// The first and the last day of a window.
pub(crate) fn read_window(first: &[u8], last: &[u8]) -> Result<(u32, u32), PlanComplaint>
    ensures { result ≡ window_read first.now last.now }
{
    Ok((read_date(first)?, read_date(last)?))
}

fn read_size(word: &[u8]) -> Result<usize, PlanComplaint>
    ensures { result ≡ size_read word.now }
{
    let size = Numbers::Digits
        .read(word, MOST_PLACES)
        .ok_or(PlanComplaint::BadSize)?;
    Ok(size as usize)
}

fn read_sizes(series: &[u8], faults: &[u8], queue: &[u8]) -> Result<Sizes, PlanComplaint>
    ensures { result ≡ sizes_read series.now faults.now queue.now }
{
    Ok(Sizes {
        series: read_size(series)?,
        faults: read_size(faults)?,
        queue: read_size(queue)?,
    })
}

// A window without sizes.
fn read_usual(first: &[u8], last: &[u8]) -> Result<((u32, u32), Sizes), PlanComplaint>
    ensures { result ≡ usual_read first.now last.now }
{
    Ok((read_window(first, last)?, Sizes::USUAL))
}

// A window with the sizes of a plan's tables.
fn read_sized(
    first: &[u8],
    last: &[u8],
    series: &[u8],
    faults: &[u8],
    queue: &[u8],
) -> Result<((u32, u32), Sizes), PlanComplaint>
    ensures { result ≡ sized_read first.now last.now series.now faults.now queue.now }
{
    Ok((
        read_window(first, last)?,
        read_sizes(series, faults, queue)?,
    ))
}

// A window with sizes or without.
#[tactic(auto, using(crate::proofs::Words::not_two_or_five))]
pub(crate) fn read_opening(words: &[&[u8]]) -> Result<((u32, u32), Sizes), PlanComplaint>
    ensures { result ≡ opening_read (map (λ w. w.now) words.now) }
{
    match words {
        [first, last] => read_usual(first, last),
        [first, last, series, faults, queue] => read_sized(first, last, series, faults, queue),
        _ => Err(PlanComplaint::OpenWords),
    }
}

// The bytes of a text buffer.
pub(crate) fn read_bytes(word: &[u8]) -> Result<usize, PlanComplaint>
    ensures { result ≡ bytes_read word.now }
{
    let bytes = Numbers::Digits
        .read(word, MOST)
        .ok_or(PlanComplaint::BadBytes)?;
    Ok(bytes as usize)
}

pub(crate) fn read_draws(word: &[u8]) -> Result<Draws, PlanComplaint>
    ensures { result ≡ draws_read word.now }
{
    if word == b"all".as_slice() {
        return Ok(Draws::All);
    }
    match Numbers::Digits.read(word, MOST) {
        Some(times) if times >= 1 => Ok(Draws::Times(times)),
        _ => Err(PlanComplaint::BadCount),
    }
}
