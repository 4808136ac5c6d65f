//! The two ends of a queue: elements are added behind the last one and taken from the front.
//!
//! The clauses `count` follow from those before them. They are there for callers that count slots over several calls,
//! as one that looks for two free slots and then puts twice: sums are all that such a caller has to know about.
ghost use Rattle.std.specs.Prelude.{◌≡◌, ◌+◌, ◌<◌, ◌≤◌, [], length, is_some, is_ok, if◌then◌else◌, slice_set};
ghost use Rattle.queue.specs.Contents.{contents, places, slot_after, Put, Taken};

use crate::{Full, Queue};

impl<'a, T: Copy> Queue<'a, T> {
    /// An empty queue over `slots`. What they hold is never read; no slots at all make a queue that refuses everything.
    pub fn new(slots: &'a mut [T]) -> Queue<'a, T>
        ensures empty { contents result ≡ [] }
        ensures room { places result ≡ length slots.old }
    {
        Queue {
            slots,
            head: 0,
            used: 0,
        }
    }

    /// Adds `x` at the end. It is refused exactly where every slot is in use, and then nothing changes.
    pub fn put(&mut self, x: T) -> Result<(), Full>
        ensures put { Put (contents self.old) x (places self.old) result (contents self.new) }
        ensures count { length (contents self.new) ≡ length (contents self.old) + (if is_ok result then 1 else 0) }
        ensures room { places self.new ≡ places self.old }
    {
        let Queue { slots, head, used } = self;
        let count = slots.len();
        if *used == count {
            return Err(Full);
        }
        store(slots, slot_after(*head, *used, count), x);
        *used += 1;
        Ok(())
    }

    /// Takes the first element out and frees its slot; `None` exactly where the queue is empty.
    pub fn take(&mut self) -> Option<T>
        ensures taken { Taken (contents self.old) result (contents self.new) }
        ensures count { length (contents self.new) + (if is_some result then 1 else 0) ≡ length (contents self.old) }
        ensures room { places self.new ≡ places self.old }
    {
        let Queue { slots, head, used } = self;
        if *used == 0 {
            return None;
        }
        let first = slots[*head];
        *head = slot_after(*head, 1, slots.len());
        *used -= 1;
        Some(first)
    }
}

/// Writes `x` into the slot at `at`.
fn store<T: Copy>(slots: &mut [T], at: usize, x: T)
    requires { at < length slots.old }
    ensures { slots.new ≡ slice_set slots.old at x }
{
    slots[at] = x;
}

/// The slot that comes `n` after the slot `from`, of `count` in a ring. No sum is made that could pass the largest `usize`.
fn slot_after(from: usize, n: usize, count: usize) -> usize
    requires { (from < count) × (n ≤ count) }
    ensures { result ≡ slot_after from n count }
{
    let ahead = count - from;
    if n < ahead { from + n } else { n - ahead }
}
