//! A queue over slots that its user hands in, for every element type that can be copied: first in, first out.
//!
//! A `Queue` allocates nothing. It has as many slots as the slice it was made from, for as long as it lives, and where
//! every slot is in use it refuses the next element and stays as it is.
//!
//! To its user a queue is a list, `contents` in specs/Contents.antt, and a number of slots, `places`. Every contract
//! speaks of these two alone; that the slots are a ring is known in this crate only.
//!
//! - this file has the types,
//! - `ends` has the making of a queue, and what adds at its end and takes from its front,
//! - `counts` has what a queue tells about itself,
//! - `laws` has the law that follows for whole runs of calls.
#![tactic(auto)]

ghost use Rattle.std.specs.Prelude.{◌-◌, ◌≤◌, length};

mod counts;
mod ends;
pub mod laws;

/// The refusal of a queue whose slots are all in use.
#[derive(Clone, Copy, PartialEq, Eq, Debug)]
pub struct Full;

/// A queue over lent slots: the slots in use are `used` in a row from `head` on, and after the last slot comes the first.
// Lent slots and no `VecDeque`: nothing is allocated, here or at a put.
#[derive(Drop)]
pub struct Queue<'a, T> {
    slots: &'a mut [T],
    head: usize,
    used: usize,
    ghost within: { used ≤ length slots.now },
    // `head` is a slot's place, or 0 where there is no slot.
    ghost place: { head ≤ length slots.now - 1 },
}
