//! Why a call is refused.
//!
//! There are three layers, each with errors of its own: a keeper of rows, the session, and the engine above it,
//! which knows in which state a call may come. An error is passed up with its subject, what it is about.
//!
//! - [`errors`]: the errors of session and engine, under the crate's names, and how one becomes another on its
//!   way up. The keeper's are in the crate `rows`.
//! - [`layer`]: the layers, with their numbers.
//! - [`told`]: what a user is told of a refusal: number, name, layer and subject.
//!
//! `specs/Refusals.antt` has the whole list.

#![tactic(auto)]

pub mod errors;
pub mod layer;
pub mod told;
