// Bytes that are read one after another, and what is read from them: comparisons that ignore letter case, and pieces
// between separators.
#![tactic(auto)]

ghost use Rattle.std.specs.Prelude.{◌≡◌, ℕ, List, [], IfNone};
ghost use Rattle.text.specs.Pieces.{before};

mod compare;
mod dates;
mod each;
mod pieces;

pub use compare::{reads, same_letter, same_text};
pub use dates::read_day;
pub use each::Each;
pub use pieces::{Pieces, Separator, Stop, UpTo, after};

// Bytes that are read one after another. Not an iterator itself: readers look ahead on copies, and std's iterators over
// slices are not Copy, while a clone may fail.
pub trait Bytes: Copy {
    // the bytes that are left
    ghost left: { Self → List ℕ };

    fn next(&mut self) -> Option<u8>
        ensures read { left self.old ≡ before result (left self.new) }
        ensures ended { IfNone result (left self.new ≡ []) };

    // The bytes that are left as an iterator.
    final fn each(self) -> Each<Self>
        ensures { result ≡ left self }
    {
        Each::of(self)
    }
}

impl<'a> Bytes for &'a [u8] {
    ghost left = { λ s. s.now };

    fn next(&mut self) -> Option<u8> {
        let (first, rest) = self.split_first()?;
        *self = rest;
        Some(*first)
    }
}
