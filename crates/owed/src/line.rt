// Lines, and their order.
ghost use Rattle.std.proofs.Common.{rules};
ghost use Rattle.queue.specs.Numbers.{pair_strict};
ghost use Rattle.owed.specs.Lines.{precedes};

use queue::Entry;

// A line: a day in the window that a series gives, with the number of the series, from 1. Also a mark, which stands at a
// line or, with number 0, before a day's lines.
#[derive(Clone, Copy, Debug, PartialEq, Eq, PartialOrd, Ord)]
pub struct Line {
    pub day: u32,
    pub series: u16,
}

// By day, and on one day by number.
impl Entry for Line {
    ghost before = { precedes };

    ghost order = { pair_strict (λ l. l.day) (λ l. l.series) (λ x y d s i. record { day = d i; series = s i }) };

    ghost says = { Prim.search rules };
}
