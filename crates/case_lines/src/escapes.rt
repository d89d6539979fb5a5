// A case's file, as it stands on a line.
ghost use Rattle.std.specs.Prelude.{◌≡◌, IfOk, Some, None};
ghost use Rattle.std.specs.Option.{option_map};
ghost use Rattle.case_lines.specs.Escapes.{escaped, plain, First};

use std::alloc::{AllocError, Global};

// What a backslash and a byte stand for.
fn escaped(b: u8) -> Option<u8>
    ensures { result ≡ escaped b }
{
    match b {
        b'r' => Some(b'\r'),
        b'n' => Some(b'\n'),
        b'\\' => Some(b'\\'),
        _ => None,
    }
}

// The first byte that a text stands for, and the text after it.
fn first_byte(text: &[u8]) -> Option<(u8, &[u8])>
    ensures { First text.now result }
{
    match text {
        [b'\\', b, rest @ ..] => Some((escaped(*b)?, rest)),
        [b'\\'] | [] => None,
        [b, rest @ ..] => Some((*b, rest)),
    }
}

// The bytes that a text stands for, if each of its backslashes stands for one.
pub fn plain_bytes(heap: Global, text: &[u8]) -> Result<Option<Vec<u8>>, AllocError>
    ensures { IfOk result (λ bytes. option_map (λ v. v.items) bytes ≡ plain text.now) }
{
    let mut bytes = Vec::new(heap);
    let mut left = text;
    while !left.is_empty() {
        let Some((b, rest)) = first_byte(left) else {
            return Ok(None);
        };
        bytes.push(b)?;
        left = rest;
    }
    Ok(Some(bytes))
}
