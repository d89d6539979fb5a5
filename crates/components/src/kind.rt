// What a line is to the components around it.
ghost use Rattle.std.specs.Prelude.{◌≡◌};
ghost use Rattle.lines.specs.View.{text};
ghost use Rattle.components.specs.Nest.{kind, kind_read};

use crate::delimiter::{Delimiter, delimiter_of};
use lines::{Cursor, value_of};

// A BEGIN or END with its value, or any other property.
#[derive(Clone, Copy)]
pub enum Kind<'a> {
    Begin(Cursor<'a>),
    End(Cursor<'a>),
    Other,
}

// What the line that begins here is, for who wants the value of each BEGIN and END.
pub fn kind_of<'a>(line: Cursor<'a>) -> Kind<'a>
    ensures { kind_read result ≡ kind (text line.entry) }
{
    match delimiter_of(line) {
        Delimiter::Begin => Kind::Begin(value_of(line)),
        Delimiter::End => Kind::End(value_of(line)),
        Delimiter::Other => Kind::Other,
    }
}
