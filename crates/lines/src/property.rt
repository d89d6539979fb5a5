// The parts of a line: its name, its parameters and its value.
ghost use Rattle.std.specs.Prelude.{◌≡◌, false, not, ℕ, List, [], ◌∷◌, MatchOption, IfSome, IfNone};
ghost use Rattle.lines.specs.Property.{name_byte, is_named, quoted_after, value, piece, parameters, date_valued};
ghost use Rattle.lines.specs.View.{text};

use crate::cursor::Cursor;
use std::marker::Model;
use text::{Bytes, Stop, UpTo, reads};

// Whether a byte may stand in a name: a letter, a digit or a hyphen.
pub fn in_name(b: u8) -> bool
    ensures { result ≡ name_byte b }
{
    b.is_ascii_alphanumeric() || b == b'-'
}

// Stops after a name, at the first byte that may not stand in one.
#[derive(Clone, Copy)]
struct NameEnd;

impl Stop for NameEnd {
    ghost stops = { λ _ b. not (name_byte b) };

    fn stops(&self, b: u8) -> bool {
        !in_name(b)
    }
}

// Whether the name that begins here is `wanted`.
pub fn named<B: Bytes>(line: B, wanted: &[u8]) -> bool
    ensures { result ≡ is_named wanted.now (B.Bytes.left line) }
{
    reads(UpTo::new(line, NameEnd), wanted)
}

// A line's bytes, each with whether it stands inside quotes. No iterator: it is copied to look ahead, as Bytes are.
#[derive(Clone, Copy)]
struct Quoting<B> {
    rest: B,
    quoted: bool,
}

impl<B: Bytes> Quoting<B> {
    // From outside quotes.
    fn of(line: B) -> Quoting<B>
        ensures rest { result.rest ≡ line }
        ensures outside { result.quoted ≡ false }
    {
        Quoting {
            rest: line,
            quoted: false,
        }
    }

    // The next byte; a quote counts as what stands before it.
    fn next(&mut self) -> Option<(u8, bool)>
        ensures read { MatchOption result (B.Bytes.left self.old.rest ≡ []) (λ at. B.Bytes.left self.old.rest ≡ at.0 ∷ B.Bytes.left self.new.rest) }
        ensures ended { IfNone result (B.Bytes.left self.new.rest ≡ []) }
        ensures quoted { IfSome result (λ at. at.1 ≡ self.old.quoted) }
        ensures turned { IfSome result (λ at. self.new.quoted ≡ quoted_after self.old.quoted at.0) }
    {
        let b = self.rest.next()?;
        let quoted = self.quoted;
        self.quoted = quoted != (b == b'"');
        Some((b, quoted))
    }
}

// The line's value: what stands after the first colon outside quotes.
// A loop, since a chain would keep the rest of the line to itself.
pub fn value_of(line: Cursor) -> Cursor
    ensures { text result ≡ value (text line.entry) }
{
    let mut bytes = Quoting::of(line);
    while let Some(byte) = bytes.next() {
        if matches!(byte, (b':', false)) {
            break;
        }
    }
    bytes.rest
}

// A parameter's bytes, to the semicolon or colon outside quotes that ends it.
// Not an `UpTo`: for a `Stop` that keeps a state, each stop and each text up to one would carry a step.
#[derive(Clone, Copy)]
struct Parameter<B> {
    bytes: Quoting<B>,
}

impl<B: Bytes> Bytes for Parameter<B> {
    ghost left = { λ s. piece s.bytes.quoted (B.Bytes.left s.bytes.rest) };

    fn next(&mut self) -> Option<u8> {
        let mut bytes = self.bytes;
        match bytes.next()? {
            (b':' | b';', false) => None,
            (b, _) => {
                self.bytes = bytes;
                Some(b)
            }
        }
    }
}

// The parameters of a line, up to the colon outside quotes.
#[derive(Drop)]
struct Parameters<B: Bytes> {
    bytes: Quoting<B>,
}

impl<B: Bytes> Model for Parameters<B> {
    ghost Value = { List (List ℕ) };

    ghost view = { λ p. parameters p.bytes.quoted (B.Bytes.left p.bytes.rest) };
}

impl<B: Bytes> Parameters<B> {
    fn of(line: B) -> Parameters<B>
        ensures { result ≡ parameters false (B.Bytes.left line) }
    {
        Parameters {
            bytes: Quoting::of(line),
        }
    }
}

impl<B: Bytes> Iterator for Parameters<B> {
    ghost use Rattle.std.specs.Iterator.{YieldsFirstBy, item_count};

    type Item = Parameter<B>;

    ghost next_gives = { YieldsFirstBy ⟦<Parameter<B> as Bytes>⟧.left (λ s. s) };

    ghost remaining = { item_count (λ s. s) };

    // A loop over a copy: a step is taken only where no colon ends the parameters.
    fn next(&mut self) -> Option<Parameter<B>> {
        loop {
            let mut bytes = self.bytes;
            let byte = bytes.next()?;
            if let (b':', false) = byte {
                return None;
            }
            self.bytes = bytes;
            if let (b';', false) = byte {
                return Some(Parameter { bytes });
            }
        }
    }
}

// Whether the line's first VALUE parameter is DATE.
pub fn is_date(line: Cursor) -> bool
    ensures { result ≡ date_valued (text line.entry) }
{
    Parameters::of(line)
        .find(|parameter| named(*parameter, b"VALUE"))
        .is_some_and(|parameter| reads(parameter, b"VALUE=DATE"))
}
