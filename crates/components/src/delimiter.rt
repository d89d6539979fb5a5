// Whether a line opens a component, closes one, or neither.
ghost use Rattle.std.specs.Prelude.{◌≡◌};
ghost use Rattle.lines.specs.View.{text};
ghost use Rattle.components.specs.Nest.{kind, kind_delimited};

use lines::{Cursor, named};

// A BEGIN, an END, or any other property.
#[derive(Clone, Copy)]
pub enum Delimiter {
    Begin,
    End,
    Other,
}

// What the line that begins here is. The value of a BEGIN or END is not sought: most who ask do without it.
pub fn delimiter_of(line: Cursor) -> Delimiter
    ensures { kind_delimited (text line.entry) result ≡ kind (text line.entry) }
{
    if named(line, b"BEGIN") {
        Delimiter::Begin
    } else if named(line, b"END") {
        Delimiter::End
    } else {
        Delimiter::Other
    }
}
