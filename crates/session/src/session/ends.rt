//! The ends of both sides.
ghost use Rattle.std.specs.Prelude.{◌≡◌};
ghost use Rattle.endpoint.specs.Calls.{done, our_end, peer_end};
ghost use Rattle.endpoint.specs.Objections.{ended_by_us};
ghost use Rattle.endpoint.specs.Stops.{stop_pair};
ghost use Rattle.session.specs.Views.{endpoint_of, view, answered, OnWire};

use super::Session;
use definitions::numbers::ErrorCondition;
use endpoint::answers::SessionStopReason;
use frames::performatives::End;
use frames::session::{SessionFrame, SessionFrameBody};
use queue::Queue;
use refusals::errors::SessionInnerError;
use rows::keeper::Keeper;
use states::event::SessionEvent;
use states::state::SessionState;

impl<K: Keeper> Session<K> {
    /// Puts our end on the wire.
    pub(crate) fn send_end(
        &mut self,
        condition: ErrorCondition,
        wire: &mut Queue<'_, SessionFrame>,
    ) -> Result<(), SessionInnerError>
        ensures { OnWire K.Keeper (view self.old) wire.old (our_end condition) (answered (λ _. done) result) (view self.new) wire.new }
    {
        self.send(SessionFrameBody::End(End { condition }), wire)?;
        self.local_state.advance(SessionEvent::OurEnd, condition);
        Ok(())
    }

    /// Stops, and answers with an end of ours unless ours went out before.
    pub(crate) fn on_incoming_end(
        &mut self,
        condition: ErrorCondition,
        wire: &mut Queue<'_, SessionFrame>,
    ) -> Result<(), SessionInnerError>
        ensures { OnWire K.Keeper (view self.old) wire.old (peer_end condition) (answered (λ _. done) result) (view self.new) wire.new }
    {
        let reason = if self.has_ended() {
            SessionStopReason::Ended(condition)
        } else {
            self.send(SessionFrameBody::End(End { condition: 0 }), wire)?;
            SessionStopReason::RemoteEnded(condition)
        };
        self.session_stop_reason = Some(reason);
        self.local_state.advance(SessionEvent::PeerEnd, 0);
        Ok(())
    }

    /// Whether our end went out, and the peer's has not come.
    fn has_ended(&self) -> bool
        ensures { result ≡ ended_by_us (endpoint_of self.now).state }
    {
        matches!(
            self.local_state,
            SessionState::EndSent | SessionState::Discarding
        )
    }

    /// Why the session stopped, by its number, and the condition of the peer's end; both 0 before.
    // A pair of numbers and no `Option`, since that is what a user is told.
    pub(crate) fn stop_reason(&self) -> (u8, ErrorCondition)
        ensures { result ≡ stop_pair (endpoint_of self.now).stop }
    {
        self.session_stop_reason
            .map_or((0, 0), SessionStopReason::numbers)
    }
}
