// How the lines of a file end.
ghost use Rattle.std.specs.Prelude.{◌≡◌};
ghost use Rattle.lines.specs.Ended.{well_ended};

// Whether the file is one line or more, each ending in CR LF, with no other CR or LF.
pub fn well_ended(file: &[u8]) -> bool
    ensures { result ≡ well_ended file.now }
{
    let mut rest = file;
    let mut ended = false;
    loop {
        match rest {
            [b'\r', b'\n', tail @ ..] => {
                ended = true;
                rest = tail;
            }
            [b'\r' | b'\n', ..] => return false,
            [_, tail @ ..] => {
                ended = false;
                rest = tail;
            }
            [] => return ended,
        }
    }
}
