//! The elementary types of an AMQP 1.0 session.
//!
//! - [`numbers`]: handles, ids, roles, settle modes and delivery states, as Part 2 defines them.
//! - [`link_number`]: the number under which an application knows a link.

#![tactic(auto)]

pub mod link_number;
pub mod numbers;
