//! The calls that a user makes. They are still to come.
