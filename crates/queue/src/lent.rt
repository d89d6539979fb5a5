// A queue over lent places, which keeps how many of them are in use.
use crate::{Entry, pop, push};
use std::marker::Model;

// The entries stand in the first places, in heap order.
#[derive(Drop)]
pub struct Queue<'a, T: Entry> {
    slots: &'a mut [T],
    used: usize,
}

impl<'a, T: Entry> Model for Queue<'a, T> {
    ghost use Rattle.std.specs.Prelude.{◌≤◌, length, take, drop};
    ghost use Rattle.queue.specs.Heap.{Heaped};
    ghost use Rattle.queue.specs.Lent.{Holding};

    ghost Value = { Holding T };

    ghost view = { λ q. record { entries = take q.used q.slots.now; places = length q.slots.now; spare = drop q.used q.slots.now } };

    ghost invariant = { λ q. (q.used ≤ length q.slots.now) × Heaped T.Entry.before q.slots.now q.used };
}

impl<'a, T: Entry> Queue<'a, T> {
    ghost use Rattle.std.specs.Prelude.{◌≡◌, ◌<◌, [], length};
    ghost use Rattle.queue.specs.Lent.{Added, TakenFrom};

    // The queue with no entry.
    pub fn new(slots: &'a mut [T]) -> Queue<'a, T>
        ensures entries { result.entries ≡ [] }
        ensures places { result.places ≡ length slots.old }
        ensures spare { result.spare ≡ slots.old }
    {
        Queue { slots, used: 0 }
    }

    // Adds an entry.
    pub fn push(&mut self, entry: T)
        requires { length self.old.entries < self.old.places }
        ensures { Added entry self.old self.new }
    {
        push(self.slots, self.used, entry);
        self.used += 1;
    }

    // Takes the least entry.
    pub fn pop(&mut self) -> Option<T>
        ensures { TakenFrom T.Entry.before self.old self.new result }
    {
        let least = pop(self.slots, self.used)?;
        self.used -= 1;
        Some(least)
    }
}
