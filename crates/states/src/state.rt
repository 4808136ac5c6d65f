//! The states.
ghost use Rattle.std.specs.Prelude.{◌≡◌};
ghost use Rattle.states.specs.Numbers.{state_number};

/// How far a session has come (Part 2, 2.5.5). The crate's state `EndReceived` lasts no longer than a call,
/// and its `Unmapped` after an end is `Stopped` here: a session that has ended does not begin again.
#[derive(Clone, Copy, PartialEq, Eq, Debug)]
pub enum SessionState {
    Unmapped,
    BeginSent,
    BeginReceived,
    Mapped,
    EndSent,
    Discarding,
    Stopped,
}

impl SessionState {
    /// The state's number.
    // A cast, as delivery states and layers have one: a trait for all three would only name it.
    pub fn number(self) -> u8
        ensures { result ≡ state_number self }
    {
        self as u8
    }
}
