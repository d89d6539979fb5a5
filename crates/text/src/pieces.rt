// Pieces of a text between separators.
ghost use Rattle.std.specs.Prelude.{◌≡◌, ⊤, ◌==◌, ℕ, Bool, false, true, MatchOption, IfSome};
ghost use Rattle.text.specs.Pieces.{until, past, has, pieces, ahead};

use crate::Bytes;
use std::alloc::AllocError;

// Which bytes end a part of a text. Types and not closures: `left` needs a function, and what a closure answers is a
// relation.
pub trait Stop: Copy {
    ghost stops: { Self → ℕ → Bool };

    fn stops(&self, b: u8) -> bool
        ensures { result ≡ stops self.now b };
}

// A byte that stands between the pieces of a text.
#[derive(Clone, Copy)]
pub struct Separator(pub u8);

impl Stop for Separator {
    ghost stops = { λ s b. b == s.0 };

    fn stops(&self, b: u8) -> bool {
        b == self.0
    }
}

// The bytes up to the first that `stop` stops at.
#[derive(Clone, Copy)]
pub struct UpTo<B, S> {
    rest: B,
    stop: S,
}

impl<B: Bytes, S: Stop> UpTo<B, S> {
    pub fn new(rest: B, stop: S) -> UpTo<B, S>
        ensures { ⟦<UpTo<B, S> as Bytes>⟧.left result ≡ until (S.Stop.stops stop) (B.Bytes.left rest) }
    {
        UpTo { rest, stop }
    }
}

impl<B: Bytes, S: Stop> Bytes for UpTo<B, S> {
    ghost left = { λ s. until (S.Stop.stops s.stop) (B.Bytes.left s.rest) };

    fn next(&mut self) -> Option<u8> {
        let mut rest = self.rest;
        let b = rest.next().filter(|&b| !self.stop.stops(b))?;
        self.rest = rest;
        Some(b)
    }
}

// What stands past the first separator, or none without one.
// By hand: with `any` over Each the rest would have to be taken out of the iterator again.
pub fn after<B: Bytes>(bytes: B, mark: u8) -> Option<B>
    ensures found { MatchOption result (has mark (B.Bytes.left bytes) ≡ false) (λ _. has mark (B.Bytes.left bytes) ≡ true) }
    ensures rest { IfSome result (λ rest. B.Bytes.left rest ≡ past mark (B.Bytes.left bytes)) }
{
    let mut rest = bytes;
    loop {
        if rest.next()? == mark {
            return Some(rest);
        }
    }
}

// The pieces between separators of a text, one after another. The walk to the end of a piece waits until the next one is
// wanted: a reader may turn away from a piece before its end.
#[derive(Copy)]
pub struct Pieces<B> {
    // where the piece that was given last begins, or the first one; none once no other follows
    at: Option<B>,
    given: bool,
    mark: u8,
}

impl<B: Bytes> Pieces<B> {
    pub fn of(text: B, mark: u8) -> Pieces<B>
        ensures { ahead B.Bytes.left result ≡ pieces mark (B.Bytes.left text) }
    {
        Pieces {
            at: Some(text),
            given: false,
            mark,
        }
    }
}

impl<B: Bytes> Iterator for Pieces<B> {
    ghost use Rattle.std.specs.Iterator.{YieldsFirstBy, item_count};

    type Item = UpTo<B, Separator>;

    ghost next_gives = { YieldsFirstBy ⟦<UpTo<B, Separator> as Bytes>⟧.left (ahead B.Bytes.left) };

    ghost remaining = { item_count (ahead B.Bytes.left) };

    fn next(&mut self) -> Option<UpTo<B, Separator>> {
        if self.given {
            self.at = after(self.at?, self.mark);
        }
        self.given = true;
        Some(UpTo::new(self.at?, Separator(self.mark)))
    }
}

// By hand: a derive would say of the clone only what B says of its own.
impl<B: Copy> Clone for Pieces<B> {
    ghost is_clone = { λ x y. y ≡ x };

    ghost is_infallible = { λ _. ⊤ };

    fn clone(&self) -> Result<Pieces<B>, AllocError> {
        Ok(*self)
    }
}
