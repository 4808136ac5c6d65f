//! The links of a session: their names, their handles, and how each stands.
//!
//! A link is allocated under a name and a link number, and gets an output handle of ours. The peer's attach finds it by
//! its name and gives it an input handle. Two tables of 64 places hold all of that:
//!
//! - [`relay`]: what a session holds of a link;
//! - [`handle`] and [`handle_table`]: how each output handle stands, and which one is given next;
//! - [`link`] and [`link_table`]: how the link of each link number stands;
//! - [`links`]: both tables together, which is what a session holds.
//!
//! Read `specs/Sessions.antt` for what each call does, `specs/Handles.antt` and `specs/Links.antt` for the words it uses.

#![tactic(auto)]

pub mod handle;
pub mod handle_table;
pub mod link;
pub mod link_table;
pub mod links;
pub mod relay;
