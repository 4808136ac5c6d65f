//! Examples at the limits of names, numbers, queue, keepers, lines and edits: each is proved to be safe and to end, and
//! then run.
//!
//! They stand in a crate of their own, since a crate with tests is proved twice.
//!
//! - `tags` and `numbers`: names, tags, link numbers and delivery states
//! - `queues`: queues of no slot and of one, full ones, and the turn of the ring
//! - `tables`, `marks` and `places`: the three keepers
//! - `words` and `edits`: lines, and edits as lines

#![tactic(auto)]

#[cfg(test)]
mod edits;
#[cfg(test)]
mod made;
#[cfg(test)]
mod marks;
#[cfg(test)]
mod numbers;
#[cfg(test)]
mod places;
#[cfg(test)]
mod queues;
#[cfg(test)]
mod tables;
#[cfg(test)]
mod tags;
#[cfg(test)]
mod words;
