// The bytes that are left as an iterator.
ghost use Rattle.std.specs.Prelude.{◌≡◌, ℕ, List};

use crate::Bytes;
use std::marker::Model;

// The bytes that are left of a text, one after another.
#[derive(Drop)]
pub struct Each<B: Bytes> {
    rest: B,
}

impl<B: Bytes> Model for Each<B> {
    ghost Value = { List ℕ };

    ghost view = { λ e. B.Bytes.left e.rest };
}

impl<B: Bytes> Each<B> {
    pub(crate) fn of(text: B) -> Each<B>
        ensures { result ≡ B.Bytes.left text }
    {
        Each { rest: text }
    }
}

impl<B: Bytes> Iterator for Each<B> {
    ghost use Rattle.std.specs.Iterator.{YieldsFirst, item_count};

    type Item = u8;

    ghost next_gives = { YieldsFirst (λ s. s) };

    ghost remaining = { item_count (λ s. s) };

    fn next(&mut self) -> Option<u8> {
        self.rest.next()
    }
}
