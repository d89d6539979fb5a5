// A case: a name, that of a shelf, and the bytes of a file.
ghost use Rattle.std.specs.Prelude.{◌≡◌};

use case_lines::{first_word, plain_bytes};
use std::alloc::{AllocError, Global};

#[derive(Drop)]
pub(crate) struct Case {
    name: Vec<u8>,
    shelf: Vec<u8>,
    file: Vec<u8>,
}

impl Case {
    pub(crate) fn name(&self) -> &[u8]
        ensures { result.now ≡ self.now.name.items }
    {
        self.name.as_slice()
    }

    pub(crate) fn shelf(&self) -> &[u8]
        ensures { result.now ≡ self.now.shelf.items }
    {
        self.shelf.as_slice()
    }

    pub(crate) fn file(&self) -> &[u8]
        ensures { result.now ≡ self.now.file.items }
    {
        self.file.as_slice()
    }
}

// The name, the shelf and the text of a case's line: `file NAME SHELF TEXT`.
fn parts(line: &[u8]) -> Option<(&[u8], &[u8], &[u8])> {
    let (name, rest) = first_word(line.strip_prefix(b"file ")?)?;
    let (shelf, text) = first_word(rest)?;
    Some((name, shelf, text))
}

// The case on a line, if it is one.
pub(crate) fn case_on(heap: Global, line: &[u8]) -> Result<Option<Case>, AllocError> {
    let Some((name, shelf, text)) = parts(line) else {
        return Ok(None);
    };
    let name = Vec::from_slice(heap, name)?;
    let shelf = Vec::from_slice(heap, shelf)?;
    Ok(plain_bytes(heap, text)?.map(|file| Case { name, shelf, file }))
}
