//! Rows, and what it means to keep them until they are settled.
//!
//! A row is what an application hands over for delivery, known by a link number and a delivery tag. A
//! keeper holds the rows that are pending: handed over and not yet settled. Several keepers stand behind
//! the one trait of this crate, and the session is proved over every one of them.
//!
//! - [`row`]: a row, made of a link number and a tag that fits.
//! - [`answers`]: what a keeper answers, and from a standing to its refusal.
//! - [`keeper`]: the trait, with what every keeper must show, and no more.
//! - [`pending`]: what keepers hold of a row that is pending.
//! - [`reply`]: the answer to a link's flow that the keepers of this repository give.
//!
//! What the trait says is in `specs/Meaning.antt`; read that first.

#![tactic(auto)]

pub mod answers;
pub mod keeper;
pub mod pending;
pub mod reply;
pub mod row;
