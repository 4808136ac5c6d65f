//! Edited rows leave as transfers.
//!
//! An application edits rows. Each edit is written into row memory, its row is pledged with a keeper, and
//! a transfer that carries the new value is put on the wire queue. An edit that is refused changes
//! nothing.
//!
//! - [`memory`]: row memory, fixed in size: the text of every value, and which row has which.
//! - [`edit`]: an edit, and why one is refused.
//! - [`store`]: the outbox.
//! - [`send`]: the sending of an edit. What it means is in `specs/Sending.antt`.

#![tactic(auto)]

pub mod edit;
pub mod memory;
pub mod send;
pub mod store;
