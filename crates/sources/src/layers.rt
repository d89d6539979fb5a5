// Layers over any source: an end, an exclusion, a union, and a source that is lent.
ghost use Rattle.sources.specs.Sets.{listed, until, except, union};

use crate::Source;

// The days up to a last one, which is included.
#[derive(Clone, Copy)]
pub struct Until<S> {
    pub inner: S,
    pub last: u32,
}

impl<S: Source> Source for Until<S> {
    ghost days = { λ s. until (S.Source.days s.inner) s.last };

    ghost ready = { λ s. S.Source.ready s.inner };

    fn next(&self, from: u32) -> Option<u32> {
        self.inner.next(from).filter(|&day| day <= self.last)
    }
}

// The days that are not listed.
#[derive(Clone, Copy)]
pub struct Except<'a, S> {
    pub inner: S,
    pub days: &'a [u32],
}

impl<'a, S: Source> Source for Except<'a, S> {
    ghost days = { λ s. except (S.Source.days s.inner) (listed s.days.now) };

    ghost ready = { λ s. S.Source.ready s.inner };

    fn next(&self, from: u32) -> Option<u32> {
        // A source is no iterator, and `successors` would always ask for one day more than is wanted.
        let mut at = from;
        while let Some(day) = self.inner.next(at) {
            if !self.days.contains(&day) {
                return Some(day);
            }
            at = day + 1;
        }
        None
    }
}

// The days of either of two sources.
#[derive(Clone, Copy)]
pub struct Union<A, B> {
    pub one: A,
    pub other: B,
}

impl<A: Source, B: Source> Source for Union<A, B> {
    ghost days = { λ s. union (A.Source.days s.one) (B.Source.days s.other) };

    ghost ready = { λ s. A.Source.ready s.one × B.Source.ready s.other };

    fn next(&self, from: u32) -> Option<u32> {
        let one = self.one.next(from);
        let other = self.other.next(from);
        one.into_iter().chain(other).min()
    }
}

// A source that is lent.
impl<'a, S: Source> Source for &'a S {
    ghost days = { λ s. S.Source.days s.now };

    ghost ready = { λ s. S.Source.ready s.now };

    fn next(&self, from: u32) -> Option<u32> {
        (**self).next(from)
    }
}
