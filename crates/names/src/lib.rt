//! Link names and delivery tags: short byte strings that are held in place, without an allocator.
//!
//! [`octets`] has the type, its methods and its equality.

#![tactic(auto)]

pub mod octets;
