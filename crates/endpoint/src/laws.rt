//! What the meaning of the calls comes to. No law is stated yet.
