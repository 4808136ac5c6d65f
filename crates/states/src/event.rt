//! The events, and what the table may say of one.
use crate::state::SessionState;

/// What happens to a session: the columns of the table.
#[derive(Clone, Copy, PartialEq, Eq, Debug)]
pub enum SessionEvent {
    OurBegin,
    OurEnd,
    PeerBegin,
    PeerEnd,
    /// Any other frame of the peer's.
    PeerFrame,
    /// Any other frame of ours.
    OurFrame,
}

/// What the table says of an event.
#[derive(Clone, Copy, PartialEq, Eq, Debug)]
pub enum Verdict {
    /// It must not happen.
    No,
    /// It happens, and leads to this state. Our end with an error condition leads to `Discarding` instead.
    To(SessionState),
    /// It happens, and the state stays.
    Runs,
    /// It happens without a frame of ours.
    Mute,
    /// It is passed over, whatever it holds.
    Drop,
}
