//! A keeper that shows how little the trait asks.
//!
//! It holds at most one row, it never replies, and whether it has a place changes whenever a link is
//! closed: with nothing pending it may have a place for every row, or for none. So its places are no
//! function of the pending rows, and it is a keeper all the same. Nobody would use it.
//!
//! - [`fickle`]: the keeper; `fickle::keeps` is its trait.
//!
//! What it means is in `specs/Fickle.antt`.

#![tactic(auto)]

pub mod fickle;
