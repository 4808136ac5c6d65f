//! The table of states and events.
ghost use Rattle.std.specs.Prelude.{◌≡◌};
ghost use Rattle.states.specs.Table.{verdict, next};

use crate::event::{SessionEvent, Verdict};
use crate::state::SessionState;
use definitions::numbers::ErrorCondition;

/// A row for each state but `Stopped`, a column for each event: our begin, our end, peer begin, peer end,
/// peer frame, our frame.
const TABLE: [[Verdict; 6]; 6] = [
    [
        Verdict::To(SessionState::BeginSent),
        Verdict::No,
        Verdict::To(SessionState::BeginReceived),
        Verdict::No,
        Verdict::No,
        Verdict::No,
    ],
    [
        Verdict::No,
        Verdict::No,
        Verdict::To(SessionState::Mapped),
        Verdict::To(SessionState::Stopped),
        Verdict::Runs,
        Verdict::No,
    ],
    [
        Verdict::To(SessionState::Mapped),
        Verdict::No,
        Verdict::No,
        Verdict::To(SessionState::Stopped),
        Verdict::Runs,
        Verdict::No,
    ],
    [
        Verdict::No,
        Verdict::To(SessionState::EndSent),
        Verdict::No,
        Verdict::To(SessionState::Stopped),
        Verdict::Runs,
        Verdict::Runs,
    ],
    [
        Verdict::No,
        Verdict::No,
        Verdict::No,
        Verdict::To(SessionState::Stopped),
        Verdict::Mute,
        Verdict::No,
    ],
    [
        Verdict::No,
        Verdict::No,
        Verdict::No,
        Verdict::To(SessionState::Stopped),
        Verdict::Drop,
        Verdict::No,
    ],
];

impl SessionState {
    /// What the table says of an event in this state. Nothing happens to a session that has stopped.
    pub fn verdict(self, event: SessionEvent) -> Verdict
        ensures { result ≡ verdict self event }
    {
        match self {
            SessionState::Stopped => Verdict::No,
            _ => TABLE[self as usize][event as usize],
        }
    }

    /// Changes to the state that the event leads to, or stays where the table names none. The condition is
    /// that of our end.
    // A rule of the project: state and event are matched together, as a state machine is read; the table beside it is
    // data, and both are held to one definition. The condition stands beside the event, since events are columns.
    pub fn advance(&mut self, event: SessionEvent, condition: ErrorCondition)
        ensures { self.new ≡ next self.old event condition }
    {
        *self = match (*self, event) {
            (SessionState::Unmapped, SessionEvent::OurBegin) => SessionState::BeginSent,
            (SessionState::Unmapped, SessionEvent::PeerBegin) => SessionState::BeginReceived,
            (SessionState::BeginSent, SessionEvent::PeerBegin)
            | (SessionState::BeginReceived, SessionEvent::OurBegin) => SessionState::Mapped,
            (SessionState::Mapped, SessionEvent::OurEnd) if condition == 0 => SessionState::EndSent,
            (SessionState::Mapped, SessionEvent::OurEnd) => SessionState::Discarding,
            (SessionState::Unmapped, SessionEvent::PeerEnd) => return,
            (_, SessionEvent::PeerEnd) => SessionState::Stopped,
            _ => return,
        };
    }
}
