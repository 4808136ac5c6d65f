//! A keeper that marks an application's own records of its rows.
//!
//! An application lends its records; a row has a place where one of them names it, and is pending while
//! the first that does bears a mark. The records are the memory: nothing is allocated, and when the keeper
//! is gone the application reads in them what is still unsettled.
//!
//! - [`record`]: a record, and which row it names.
//! - [`marking`]: the keeper, how it is opened and given up; `marking::keeps` makes it a keeper.
//!
//! What the contracts say is in `specs/`: `Records` (which row a record names, what a mark changes) and `Marking`
//! (how a row stands, the rule of places, and that the records are the same loan).

#![tactic(auto)]

pub mod marking;
pub mod record;
