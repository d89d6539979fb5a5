// Lines of a script.
ghost use Rattle.std.specs.Prelude.{◌≡◌, map};
ghost use Rattle.plan_commands.specs.Commands.{wants};
ghost use Rattle.plan_commands.specs.Scripts.{in_script, scripted, script_line};

use crate::reading::script_command;
use crate::{Draws, PlanCommand, PlanComplaint, Sizes};

// A line of a script whose words are well formed.
#[derive(Clone, Copy, Debug, PartialEq, Eq)]
pub enum ScriptLine<'a> {
    // a plan over a window, with tables of these sizes
    Open { first: u32, last: u32, sizes: Sizes },
    // the file of this name
    Load(&'a [u8]),
    // before the lines of this day
    Seek(u32),
    // so many lines
    Draw(u32),
}

// A command as a line of a script, if a script may have it.
fn as_line<'a>(command: PlanCommand<'a, '_>) -> Result<ScriptLine<'a>, PlanComplaint>
    ensures { scripted result ≡ in_script (wants command.entry) }
{
    match command {
        PlanCommand::Open { first, last, sizes } => Ok(ScriptLine::Open { first, last, sizes }),
        PlanCommand::Load(name) => Ok(ScriptLine::Load(name)),
        PlanCommand::Seek(day) => Ok(ScriptLine::Seek(day)),
        PlanCommand::Draw(Draws::Times(times)) => Ok(ScriptLine::Draw(times)),
        _ => Err(PlanComplaint::NotInScript),
    }
}

// The line of a script that words make: a command that a script may have.
pub fn read_script_line<'a>(words: &[&'a [u8]]) -> Result<ScriptLine<'a>, PlanComplaint>
    ensures { scripted result ≡ script_line (map (λ w. w.now) words.now) }
{
    let (keyword, arguments) = words.split_first().ok_or(PlanComplaint::NotInScript)?;
    let command = script_command(keyword, arguments).ok_or(PlanComplaint::NotInScript)??;
    as_line(command)
}
