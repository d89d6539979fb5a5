// The first n days of a source.
ghost use Rattle.std.specs.Prelude.{◌≡◌};
ghost use Rattle.sources.specs.Sets.{first_n, LastOf, CountIsUntil};

use crate::Source;
use crate::layers::Until;

// The last of the first n days, by a walk over them.
pub fn last_day<S: Source>(source: &S, n: u16) -> Option<u32>
    requires { S.Source.ready source.now }
    ensures { LastOf (S.Source.days source.now) n result }
{
    // A source is no iterator, and `successors` would ask for one day more than is counted.
    let mut last = None;
    let mut at = 0;
    for _i in 0..n {
        let Some(day) = source.next(at) else {
            break;
        };
        last = Some(day);
        at = day + 1;
    }
    last
}

// The first n days. The last of them is worked out once, so that no question walks to it again.
#[derive(Clone, Copy)]
pub struct Count<S> {
    inner: S,
    n: u16,
    last: Option<u32>,
}

impl<S: Source> Count<S> {
    // Walks over the days once, to the last of them.
    pub fn over(inner: S, n: u16) -> Count<S>
        requires { S.Source.ready inner }
        ensures whole { (result.inner ≡ inner) × (result.n ≡ n) }
        ensures worked { LastOf (S.Source.days result.inner) result.n result.last }
    {
        let last = last_day(&inner, n);
        Count::with_last(inner, n, last)
    }

    // The same with no walk, from a last day that was kept: ready exactly where it is that day.
    pub fn with_last(inner: S, n: u16, last: Option<u32>) -> Count<S>
        ensures { (result.inner ≡ inner) × (result.n ≡ n) × (result.last ≡ last) }
    {
        Count { inner, n, last }
    }
}

impl<S: Source> Source for Count<S> {
    ghost days = { λ s. first_n (S.Source.days s.inner) s.n };

    ghost ready = { λ s. S.Source.ready s.inner × LastOf (S.Source.days s.inner) s.n s.last };

    fn next(&self, from: u32) -> Option<u32> {
        let last = self.last?;
        Until {
            inner: &self.inner,
            last,
        }
        .next(from)
    }
}

// The first n days of a set are its days until the last of them.
pub fn count_is_until()
    ensures { CountIsUntil }
{}
