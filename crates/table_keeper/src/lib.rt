//! A keeper that is a table of at most 256 pending rows.
//!
//! The table has a place for any row while fewer than 256 rows are pending. Its memory is taken once, when
//! it is opened; no later call can fail for want of it.
//!
//! - [`table`]: the table, its opening, and looks at one beside the trait's. Its memory, its length and that it has no
//!   row twice are kept by the type.
//! - [`table::keeps`]: the table as a keeper.
//!
//! What a table means is in `specs/Table.antt`, and what it is to count pending rows in `specs/Counts.antt`.

#![tactic(auto)]

pub mod table;
