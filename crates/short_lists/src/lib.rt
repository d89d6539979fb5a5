// Lists of at most so many elements, which lie in the value itself: nothing is allocated.
#![tactic(auto)]

ghost use Rattle.std.specs.Prelude.{◌≡◌, ⊤, ◌<◌, ◌≤◌, ◌==◌, ◌↔◌, List, [], ◌∷◌, ◌++◌, length, take, OnOk, OnErr, IsOk};
ghost use Rattle.short_lists.specs.Places.{Filled, places, used};

use std::alloc::AllocError;
use std::marker::Model;

// What an element's place holds where no list uses it.
pub trait Blank: Copy {
    ghost blank: { Self };

    fn blank() -> Self
        ensures { result ≡ blank };
}

impl Blank for u8 {
    ghost blank = { 0 };

    fn blank() -> u8 {
        0
    }
}

impl Blank for u32 {
    ghost blank = { 0 };

    fn blank() -> u32 {
        0
    }
}

// There is no room for one more.
#[derive(Clone, Copy, Debug, PartialEq, Eq)]
pub struct Full;

// A list of at most N elements. Contracts see the list; the places that it does not use are blank, so that lists with the
// same elements are the same value.
#[derive(Copy)]
pub struct ShortList<T: Blank, const N: usize> {
    at: [T; N],
    len: usize,
}

impl<T: Blank, const N: usize> Model for ShortList<T, N> {
    ghost Value = { List T };

    ghost view = { λ s. take s.len s.at };

    ghost invariant = { λ s. Filled N T.blank s.at s.len };

    ghost inverse = { λ xs. record { at = places N T.blank xs; len = length xs } };

    ghost inverse_ok = { λ s h i. record { at = h.blanks i; len = used h i } };
}

impl<T: Blank, const N: usize> ShortList<T, N> {
    // The list with no element.
    pub fn new() -> ShortList<T, N>
        ensures { result ≡ [] }
    {
        ShortList {
            at: [T::blank(); N],
            len: 0,
        }
    }

    pub fn len(&self) -> usize
        ensures length { result ≡ length self.now }
        ensures most { result ≤ N }
    {
        self.items().len()
    }

    pub fn is_empty(&self) -> bool
        ensures { result ≡ (length self.now == 0) }
    {
        self.items().is_empty()
    }

    // One element more at the end, if there is room.
    pub fn push(&mut self, item: T) -> Result<(), Full>
        ensures room { IsOk result ↔ (length self.old < N) }
        ensures added { OnOk result (self.new ≡ self.old ++ item ∷ []) }
        ensures full { OnErr result (self.new ≡ self.old) }
    {
        if self.len == N {
            return Err(Full);
        }
        self.at[self.len] = item;
        self.len += 1;
        Ok(())
    }

    // The elements, in their order.
    pub fn items(&self) -> &[T]
        ensures value { result.now ≡ self.now }
        ensures most { length result.now ≤ N }
    {
        let all = &self.at[..];
        &all[0..self.len]
    }
}

// As a derive the proof does not close: what the clone of a T is, its trait does not say.
impl<T: Blank, const N: usize> Clone for ShortList<T, N> {
    ghost is_clone = { λ x y. y ≡ x };

    ghost is_infallible = { λ _. ⊤ };

    fn clone(&self) -> Result<ShortList<T, N>, AllocError> {
        Ok(*self)
    }
}
