// An earliest-first queue over lent places: a binary heap for every kind of entry that has a total order.
#![tactic(auto)]

ghost use Rattle.std.specs.Prelude.{◌≡◌, ◌+◌, ◌-◌, ◌*◌, ◌<◌, ◌≤◌, Bool, ◌∷◌, length, take, drop, nat_lt};
ghost use Rattle.std.specs.declared.cmp.Ordering.{Ordering};
ghost use Rattle.std.specs.List.Sorted.{IsPermutation};
ghost use Rattle.std.specs.Ordering.{is_lt};
ghost use Rattle.queue.specs.Order.{Strict};
ghost use Rattle.queue.specs.Numbers.{nat_strict};
ghost use Rattle.queue.specs.Heap.{Heaped, Popped, FirstFrom};
ghost use Rattle.queue.specs.Steps.{HeapedBut, Leads};
ghost use Rattle.std.proofs.Common.{rules};

mod lent;
#[cfg(test)]
mod tests;

pub use lent::Queue;

// What a queue can hold: values of a total order. `before` is the test of that order, and their `Ord` says the same.
pub trait Entry: Ord + Copy {
    ghost before: { Self → Self → Bool };

    ghost order: { Strict before };

    ghost says: { (x y : Self) (o : Ordering) → (o ≡ Self.Ord.cmp x y) → is_lt o ≡ before x y };
}

// Day numbers.
impl Entry for u32 {
    ghost before = { nat_lt };

    ghost order = { nat_strict };

    ghost says = { Prim.search rules };
}

fn earlier<T: Entry>(a: T, b: T) -> bool
    ensures { result ≡ T.Entry.before a b }
{
    a < b
}

// Moves the last entry up past the later ones above it. A walk from child to parent, which no iterator makes.
fn rise<T: Entry>(front: &mut [T])
    requires { 0 < length front.old }
    ensures entries { IsPermutation front.old front.new }
    ensures heaped { Heaped T.Entry.before front.old (length front.old - 1) → Heaped T.Entry.before front.new (length front.new) }
{
    let mut j = front.len() - 1;
    while 0 < j {
        let parent = (j - 1) / 2;
        if !earlier(front[j], front[parent]) {
            return;
        }
        front.swap(parent, j);
        j = parent;
    }
}

// The child of `j` that is not after the other.
fn earlier_child<T: Entry>(front: &[T], j: usize) -> usize
    requires { j * 2 + 1 < length front.now }
    ensures child { (j * 2 + 1 ≤ result) × (result ≤ j * 2 + 2) × (result < length front.now) }
    ensures leads { Leads T.Entry.before front.now result j (length front.now) }
{
    let left = j * 2 + 1;
    let right = left + 1;
    if right < front.len() && earlier(front[right], front[left]) {
        right
    } else {
        left
    }
}

// Moves the first entry down past the earlier ones below it. A walk from parent to child, which no iterator makes.
fn sink<T: Entry>(front: &mut [T])
    ensures entries { IsPermutation front.old front.new }
    ensures heaped { HeapedBut T.Entry.before front.old 0 (length front.old) → Heaped T.Entry.before front.new (length front.new) }
{
    let mut j = 0;
    while j < front.len() / 2 {
        let child = earlier_child(front, j);
        if !earlier(front[child], front[j]) {
            return;
        }
        front.swap(j, child);
        j = child;
    }
}

// Adds an entry to those of the first `used` places, which then take up one place more. For an owner who lends the places
// anew at each call and keeps the number; `Queue` is for one loan. The places may hold anything, since what an owner
// keeps may be untested: they are in heap order afterwards if they were before.
pub fn push<T: Entry>(slots: &mut [T], used: usize, entry: T)
    requires room { used < length slots.old }
    ensures entries { IsPermutation (entry ∷ take used slots.old) (take (used + 1) slots.new) }
    ensures heaped { Heaped T.Entry.before slots.old used → Heaped T.Entry.before slots.new (used + 1) }
    ensures beyond { drop (used + 1) slots.new ≡ drop (used + 1) slots.old }
{
    slots[used] = entry;
    rise(&mut slots[0..used + 1]);
}

// Takes the least entry of the first `used` places, and leaves the others in the first `used - 1`. Of places that are not
// in heap order it takes one entry all the same.
pub fn pop<T: Entry>(slots: &mut [T], used: usize) -> Option<T>
    requires within { used ≤ length slots.old }
    ensures popped { Popped T.Entry.before used slots.old slots.new result }
    ensures heaped { Heaped T.Entry.before slots.old used → Heaped T.Entry.before slots.new (used - 1) }
    ensures beyond { drop used slots.new ≡ drop used slots.old }
{
    if used == 0 {
        return None;
    }
    let front = &mut slots[0..used];
    let top = front[0];
    front.swap(0, used - 1);
    sink(&mut front[0..used - 1]);
    Some(top)
}

// The least entry of the first `used` places that is not before `from`. What these places hold afterwards is left open.
// A walk over a heap that changes with each entry taken, which no iterator makes.
pub fn first_from<T: Entry>(slots: &mut [T], used: usize, from: T) -> Option<T>
    requires within { used ≤ length slots.old }
    requires heaped { Heaped T.Entry.before slots.old used }
    ensures first { FirstFrom T.Entry.before from (take used slots.old) result }
    ensures beyond { drop used slots.new ≡ drop used slots.old }
{
    let mut left = used;
    while let Some(entry) = pop(slots, left) {
        if !earlier(entry, from) {
            return Some(entry);
        }
        left -= 1;
    }
    None
}
