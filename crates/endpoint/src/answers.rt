//! What calls answer.
ghost use Rattle.std.specs.Prelude.{◌≡◌};
ghost use Rattle.endpoint.specs.Stops.{reason_of, condition_of};

use definitions::numbers::ErrorCondition;

/// What became of a frame of the peer's.
#[derive(Clone, Copy)]
pub enum Received {
    /// It had its effect.
    Handled,
    /// It was passed over, since our end went out with an error.
    Dropped,
}

/// Why a session stopped, with the condition of the peer's end.
#[derive(Clone, Copy)]
pub enum SessionStopReason {
    /// The peer answered our end.
    Ended(ErrorCondition),
    /// The peer ended on its own.
    RemoteEnded(ErrorCondition),
}

impl SessionStopReason {
    /// The reason's number, and the condition.
    // Two numbers, since that is what a user is told of a stop, and 0 and 0 before it.
    pub fn numbers(self) -> (u8, ErrorCondition)
        ensures { (result.0 ≡ reason_of self) × (result.1 ≡ condition_of self) }
    {
        match self {
            SessionStopReason::Ended(condition) => (1, condition),
            SessionStopReason::RemoteEnded(condition) => (2, condition),
        }
    }
}
