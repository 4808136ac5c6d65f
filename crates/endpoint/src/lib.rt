//! What a session endpoint is asked, what it answers, and what that means.
//!
//! This crate has the meaning of every call on a session, apart from the code that carries it out. The promise about
//! whole runs of calls is stated over it, and the session's contracts are.
//!
//! - [`opening`]: what a session is opened with.
//! - [`answers`]: what calls answer, and why a session stopped.
//! - [`laws`]: what the meaning comes to, in the words of Part 2; still to come.
//!
//! Read the definitions in this order: `specs/Endpoint.antt`, what a session holds; `specs/Calls.antt`, the calls;
//! `specs/Rulings.antt`, which of them the state lets run; `specs/Objections.antt`, what else stands against one;
//! `specs/Frames.antt`, what goes out; `specs/Stops.antt`, why a session stopped; `specs/Steps.antt`, what a call does.

#![tactic(auto)]

pub mod answers;
pub mod laws;
pub mod opening;
