//! The frames of an AMQP 1.0 session as plain copyable records.
//!
//! The records hold every field of OASIS AMQP 1.0 Part 2, sections 2.7.2 to 2.7.8, that is a number, a
//! flag, a name, a tag, a mode, a state or a condition. They do nothing: the session reads and makes
//! them, a queue carries them, a program prints them.
//!
//! - [`performatives`]: begin, attach, flow, transfer, disposition, detach and end.
//! - [`session`]: a frame of a session, and the payload of a transfer.
//! - [`link`]: what belongs to one link: the link's part of a flow, and what tells a link of its attach
//!   or detach.

#![tactic(auto)]

pub mod link;
pub mod performatives;
pub mod session;
