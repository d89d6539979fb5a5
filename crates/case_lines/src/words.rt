// The words of a case's line.

// A line's first word and what stands after the blank behind it.
pub fn first_word(line: &[u8]) -> Option<(&[u8], &[u8])> {
    let end = line.iter().position(|b| *b == b' ')?;
    Some((&line[..end], &line[end + 1..]))
}
