//! Edits as lines of text.
//!
//! A line `edit link=3 tag=7231 was=12 now=10` says that the row with the delivery tag 72 31 (in
//! hexadecimal) on link 3 changes from `12` to `10`. The four keys may stand in any order.
//!
//! - [`unreadable`]: why a line is no edit.
//! - [`fields`]: the four fields of a line.
//! - [`read`]: the whole line. What it reads is in `specs/Reading.antt`.

#![tactic(auto)]

pub mod fields;
pub mod read;
pub mod unreadable;
