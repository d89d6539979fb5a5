// Commands on a plan, read from their words.
ghost use Rattle.std.specs.Prelude.{◌≡◌, map};
ghost use Rattle.plan_commands.specs.Commands.{wants, meant, meant_if, open_command, load_command, seek_command, draw_command, alone, report_command, list_files, list_command, run_command, script_command, other_command, plan_command};

use crate::arguments::{read_bytes, read_draws, read_opening, read_window};
use crate::{Draws, PlanCommand, PlanComplaint};
use days::digits::read_date;

// open FIRST LAST [SERIES FAULTS QUEUE]
fn open_command<'a, 'w>(words: &'w [&'a [u8]]) -> Result<PlanCommand<'a, 'w>, PlanComplaint>
    ensures { meant result ≡ open_command (map (λ w. w.now) words.now) }
{
    let ((first, last), sizes) = read_opening(words)?;
    Ok(PlanCommand::Open { first, last, sizes })
}

// load FILE
fn load_command<'a, 'w>(words: &'w [&'a [u8]]) -> Result<PlanCommand<'a, 'w>, PlanComplaint>
    ensures { meant result ≡ load_command (map (λ w. w.now) words.now) }
{
    match words {
        [name] => Ok(PlanCommand::Load(name)),
        _ => Err(PlanComplaint::LoadWords),
    }
}

// seek DAY
fn seek_command<'a, 'w>(words: &'w [&'a [u8]]) -> Result<PlanCommand<'a, 'w>, PlanComplaint>
    ensures { meant result ≡ seek_command (map (λ w. w.now) words.now) }
{
    match words {
        [day] => Ok(PlanCommand::Seek(read_date(day)?)),
        _ => Err(PlanComplaint::SeekWords),
    }
}

// draw [N|all]
fn draw_command<'a, 'w>(words: &'w [&'a [u8]]) -> Result<PlanCommand<'a, 'w>, PlanComplaint>
    ensures { meant result ≡ draw_command (map (λ w. w.now) words.now) }
{
    match words {
        [] => Ok(PlanCommand::Draw(Draws::Times(1))),
        [times] => Ok(PlanCommand::Draw(read_draws(times)?)),
        _ => Err(PlanComplaint::DrawWords),
    }
}

// report [SIZE]
fn report_command<'a, 'w>(words: &'w [&'a [u8]]) -> Result<PlanCommand<'a, 'w>, PlanComplaint>
    ensures { meant result ≡ report_command (map (λ w. w.now) words.now) }
{
    match words {
        [] => Ok(PlanCommand::Report(None)),
        [size] => Ok(PlanCommand::Report(Some(read_bytes(size)?))),
        _ => Err(PlanComplaint::ReportWords),
    }
}

// One file or more, over a window.
#[tactic(auto, using(crate::proofs::Words::some_files))]
fn list_files<'a, 'w>(
    first: &[u8],
    last: &[u8],
    files: &'w [&'a [u8]],
) -> Result<PlanCommand<'a, 'w>, PlanComplaint>
    ensures { meant result ≡ list_files first.now last.now (map (λ w. w.now) files.now) }
{
    if files.is_empty() {
        return Err(PlanComplaint::ListWords);
    }
    let (first, last) = read_window(first, last)?;
    Ok(PlanCommand::List { first, last, files })
}

// list FIRST LAST FILE...
#[tactic(auto, using(crate::proofs::Words::fewer_than_two))]
fn list_command<'a, 'w>(words: &'w [&'a [u8]]) -> Result<PlanCommand<'a, 'w>, PlanComplaint>
    ensures { meant result ≡ list_command (map (λ w. w.now) words.now) }
{
    match words {
        [first, last, files @ ..] => list_files(first, last, files),
        _ => Err(PlanComplaint::ListWords),
    }
}

// run FILE
fn run_command<'a, 'w>(words: &'w [&'a [u8]]) -> Result<PlanCommand<'a, 'w>, PlanComplaint>
    ensures { meant result ≡ run_command (map (λ w. w.now) words.now) }
{
    match words {
        [name] => Ok(PlanCommand::Run(name)),
        _ => Err(PlanComplaint::RunWords),
    }
}

// A command that takes nothing.
fn alone<'a, 'w>(
    words: &'w [&'a [u8]],
    command: PlanCommand<'a, 'w>,
) -> Result<PlanCommand<'a, 'w>, PlanComplaint>
    ensures { meant result ≡ alone (map (λ w. w.now) words.now) (wants command.entry) }
{
    if words.is_empty() {
        Ok(command)
    } else {
        Err(PlanComplaint::AloneWords)
    }
}

// The two below test words for equality: a `match` on them would test byte after byte, and be slower to prove.

// The commands that a script may have, by the first word.
pub(crate) fn script_command<'a, 'w>(
    keyword: &[u8],
    words: &'w [&'a [u8]],
) -> Option<Result<PlanCommand<'a, 'w>, PlanComplaint>>
    ensures { meant_if result ≡ script_command keyword.now (map (λ w. w.now) words.now) }
{
    if keyword == b"open".as_slice() {
        Some(open_command(words))
    } else if keyword == b"load".as_slice() {
        Some(load_command(words))
    } else if keyword == b"seek".as_slice() {
        Some(seek_command(words))
    } else if keyword == b"draw".as_slice() {
        Some(draw_command(words))
    } else {
        None
    }
}

// The others, by the first word.
fn other_command<'a, 'w>(
    keyword: &[u8],
    words: &'w [&'a [u8]],
) -> Option<Result<PlanCommand<'a, 'w>, PlanComplaint>>
    ensures { meant_if result ≡ other_command keyword.now (map (λ w. w.now) words.now) }
{
    if keyword == b"mark".as_slice() {
        Some(alone(words, PlanCommand::Mark))
    } else if keyword == b"close".as_slice() {
        Some(alone(words, PlanCommand::Close))
    } else if keyword == b"report".as_slice() {
        Some(report_command(words))
    } else if keyword == b"waive".as_slice() {
        Some(alone(words, PlanCommand::Waive))
    } else if keyword == b"list".as_slice() {
        Some(list_command(words))
    } else if keyword == b"run".as_slice() {
        Some(run_command(words))
    } else {
        None
    }
}

// The command on a plan that words make: the first says which it is, the others are its arguments. `None` where the first
// word is of no command on a plan.
pub fn read_plan_command<'a, 'w>(
    words: &'w [&'a [u8]],
) -> Option<Result<PlanCommand<'a, 'w>, PlanComplaint>>
    ensures { meant_if result ≡ plan_command (map (λ w. w.now) words.now) }
{
    let (keyword, arguments) = words.split_first()?;
    match script_command(keyword, arguments) {
        None => other_command(keyword, arguments),
        found => found,
    }
}
