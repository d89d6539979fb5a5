// The form of a line: a name, parameters and a colon outside quotes.
ghost use Rattle.std.specs.Prelude.{◌≡◌};
ghost use Rattle.lines.specs.Lines.{logical_lines};
ghost use Rattle.lines.specs.View.{text};
ghost use Rattle.lines.specs.Machine.{well_formed, all_well};

use crate::cursor::Cursor;
use text::Bytes;

// Where in a line the machine is.
#[derive(Clone, Copy)]
pub enum State {
    Start,
    Name,
    ParamStart,
    ParamName,
    Text,
    Quoted,
}

// Whether the line that begins here is a name, parameters and a colon outside quotes.
pub fn well_formed(line: Cursor) -> bool
    ensures { result ≡ well_formed (text line.entry) }
{
    let mut state = State::Start;
    for b in line.each() {
        state = match (state, b) {
            (State::Start | State::Name, b'A'..=b'Z' | b'a'..=b'z' | b'0'..=b'9' | b'-') =>
                State::Name,
            (
                State::ParamStart | State::ParamName,
                b'A'..=b'Z' | b'a'..=b'z' | b'0'..=b'9' | b'-',
            ) => State::ParamName,
            (State::Name | State::Text, b';') => State::ParamStart,
            (State::Name | State::Text, b':') => return true,
            (State::ParamName, b'=') => State::Text,
            (State::Text, b'"') => State::Quoted,
            (State::Quoted, b'"') => State::Text,
            (State::Text, _) => State::Text,
            (State::Quoted, _) => State::Quoted,
            _ => return false,
        };
    }
    false
}

// Whether every line of the file is.
pub fn all_well_formed(file: &[u8]) -> bool
    ensures { result ≡ all_well (logical_lines file.now) }
{
    Cursor::new(file).lines().all(|line| well_formed(line))
}
