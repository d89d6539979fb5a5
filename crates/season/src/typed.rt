// Lines as people type them.
ghost use Rattle.std.specs.Prelude.{◌≡◌, map, IfOk};
ghost use Rattle.commands.specs.Commands.{meant, command_of};
ghost use Rattle.commands.specs.declared.numbers.Numbers.TheVariants.{PlusDigits};
ghost use Rattle.season.specs.Typed.{WordsOf};

use commands::{Command, Complaint, Numbers};
use std::alloc::{AllocError, Global};

// The command of a line, if it is not passed over.
pub(crate) fn command_in(line: &str) -> Option<&str> {
    let command = line.trim();
    (!command.is_empty() && !command.starts_with('#')).then_some(command)
}

// The bytes of words.
fn as_bytes<'a>(heap: Global, words: &[&'a str]) -> Result<Vec<&'a [u8]>, AllocError>
    ensures { IfOk result (λ bytes. map (λ w. w.now) bytes.items ≡ map (λ w. w.now) words.now) }
{
    words.iter().map(|word| word.as_bytes()).collect(heap)
}

// The words of a typed line. People may type white space of any kind, which the lines that `commands::read_command` reads do
// not have.
pub(crate) fn typed_words<'a>(heap: Global, line: &'a str) -> Result<Vec<&'a [u8]>, AllocError>
    ensures { IfOk result (λ words. WordsOf line.now (map (λ w. w.now) words.items)) }
{
    let words = line.split_whitespace().collect::<Vec<&str>>(heap)?;
    as_bytes(heap, words.as_slice())
}

// The command that the words of a line make, whose numbers may have a plus.
pub(crate) fn read_command<'a>(words: &[&'a [u8]]) -> Result<Command<'a>, Complaint>
    ensures { meant result ≡ command_of PlusDigits (map (λ w. w.now) words.now) }
{
    Command::from_words(words.iter().map(|word| *word), Numbers::PlusDigits)
}
