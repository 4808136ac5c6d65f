//! Reads digits: a decimal number, or bytes in hexadecimal.
//!
//! [`numbers`] has the two functions; what they read is defined in `specs/Numbers.antt`.

#![tactic(auto)]

pub mod numbers;
