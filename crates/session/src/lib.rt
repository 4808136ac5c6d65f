//! The session endpoint: the sending half of an AMQP 1.0 session, over any keeper of rows.
//!
//! There are two layers. A [`session::Session`] carries calls out; it refuses what its links, queues and rows do not
//! allow. The engine above it will hold the table of states, and let a call through to the session only where the state
//! allows it. Users will talk to the engine; it and the opening of a session are still to come, so nothing here can be
//! called from outside yet.
//!
//! - [`session`]: what a session holds, and its half of each call, a file for each kind;
//! - [`engine`]: the calls that a user makes, which are still to come;
//! - `queues`: putting frames and link items on the queues.
//!
//! What each call does is defined in the crate `endpoint`; `specs/Views.antt` says what a session stands for there.

#![tactic(auto)]

pub mod engine;
mod queues;
pub mod session;
