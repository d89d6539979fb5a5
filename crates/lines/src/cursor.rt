// Places in a file.
ghost use Rattle.std.specs.Prelude.{◌+◌, ◌*◌, ◌^◌, ◌≤◌, length};

mod each_line;
mod reads;

pub use each_line::Lines;

// A place in a file, in the physical line `place`, read without folds: the bytes that are left from it on.
#[derive(Clone, Copy)]
pub struct Cursor<'a> {
    rest: &'a [u8],
    place: usize,
    // a line's end or a fold takes two bytes or more, so there is a number for each line to come
    ghost numbered: { 2 * place + length rest.now ≤ 2 ^ 64 + 1 },
}
