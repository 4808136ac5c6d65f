//! The states of a session endpoint, and what each event means in each of them.
//!
//! ```text
//!                         our begin                 peer begin
//!             UNMAPPED ---------------> BEGIN SENT -------------+
//!                |                                              v
//!                |  peer begin                  our begin     MAPPED
//!                +-----------> BEGIN RECEIVED ----------------> |
//!                                                               |
//!                   our end: END SENT, with an error DISCARDING <
//!                                                               |
//!     peer end, in every state but UNMAPPED: STOPPED <----------+
//! ```
//!
//! - [`state`]: the seven states, with their numbers.
//! - [`event`]: the six events, and what the table may say of one.
//! - [`table`]: the table, six states by six events; looking an event up, and the state machine beside it.
//! - [`laws`]: what the table comes to, in the words of Part 2, sections 2.5.1 to 2.5.5.
//!
//! The table that a reader has to believe is in `specs/Table.antt`.

#![tactic(auto)]

pub mod event;
pub mod laws;
pub mod state;
pub mod table;
