//! Deliveries that are under way: those that wait for the peer's window, and those that the peer has not settled.
//!
//! - [`book`]: which row and link a delivery id stands for, from the sending of its first transfer on.
//! - [`backlog`]: the transfers that wait, in the order in which they were submitted.
//!
//! These are the records alone; what they are for is in `specs/Backlogs.antt`.

#![tactic(auto)]

pub mod backlog;
pub mod book;
