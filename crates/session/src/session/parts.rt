//! The frames that a session makes, and putting one on the wire.
ghost use Rattle.std.specs.Prelude.{◌≡◌};
ghost use Rattle.endpoint.specs.Frames.{on_channel, begin_body};
ghost use Rattle.refusals.specs.declared.errors.SessionInnerError.TheVariants.{WireShort};
ghost use Rattle.session.specs.Queues.{PutOr};
ghost use Rattle.session.specs.Views.{endpoint_of};

use super::Session;
use crate::queues::put;
use frames::performatives::Begin;
use frames::session::{SessionFrame, SessionFrameBody};
use queue::Queue;
use refusals::errors::SessionInnerError;

impl<K> Session<K> {
    /// Puts a frame on the wire, on our channel.
    pub(super) fn send(
        &self,
        body: SessionFrameBody,
        wire: &mut Queue<'_, SessionFrame>,
    ) -> Result<(), SessionInnerError>
        ensures { PutOr (WireShort 1) wire.old (on_channel (endpoint_of self.now) body) result wire.new }
    {
        let frame = SessionFrame {
            channel: self.opening.outgoing_channel.0,
            body,
        };
        put(wire, frame, SessionInnerError::WireShort(1))
    }

    /// Our begin.
    pub(super) fn begin(&self) -> SessionFrameBody
        ensures { result ≡ begin_body (endpoint_of self.now) }
    {
        SessionFrameBody::Begin(Begin {
            remote_channel: self.incoming_channel.map(|channel| channel.0),
            next_outgoing_id: self.next_outgoing_id,
            incoming_window: self.opening.incoming_window,
            outgoing_window: self.opening.outgoing_window,
            handle_max: self.opening.handle_max,
        })
    }
}
