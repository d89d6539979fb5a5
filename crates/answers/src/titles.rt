// Titles as a console shows them.
ghost use Rattle.std.specs.Prelude.{◌≡◌, IfOk, map};
ghost use Rattle.answers.specs.Titles.{shown, title_text, title_of};

use series::Series;
use short_lists::ShortList;
use std::alloc::{AllocError, Global};

// A byte as it is shown. A title is a crew's own bytes, and no control byte among them may move a terminal's cursor.
fn shown(byte: u8) -> u8
    ensures { result ≡ shown byte }
{
    if byte < 32 || byte == 127 { b'?' } else { byte }
}

// A text as it is shown.
fn shown_bytes(heap: Global, bytes: &[u8]) -> Result<Vec<u8>, AllocError>
    ensures { IfOk result (λ text. text.items ≡ map shown bytes.now) }
{
    let mut text = Vec::new(heap);
    for byte in bytes {
        text.push(shown(*byte))?;
    }
    Ok(text)
}

// A title after a blank.
fn title_text(heap: Global, title: &Option<ShortList<u8, 32>>) -> Result<Vec<u8>, AllocError>
    ensures { IfOk result (λ text. text.items ≡ title_text title.now) }
{
    let mut text = Vec::new(heap);
    if let Some(title) = title {
        text.push(b' ')?;
        text.extend_from_slice(shown_bytes(heap, title.items())?.as_slice())?;
    }
    Ok(text)
}

// The title of the series of this number, from 1, after a blank. No series of the table may have it.
pub(crate) fn title_of(heap: Global, table: &[Series], number: usize) -> Result<Vec<u8>, AllocError>
    ensures { IfOk result (λ text. text.items ≡ title_text (title_of table.now number)) }
{
    if number == 0 || number > table.len() {
        return Ok(Vec::new(heap));
    }
    title_text(heap, &table[number - 1].title)
}
