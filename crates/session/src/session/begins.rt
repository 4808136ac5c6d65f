//! The begins of both sides.
ghost use Rattle.std.specs.Prelude.{[], Ok};
ghost use Rattle.endpoint.specs.Calls.{done, our_begin, peer_begin};
ghost use Rattle.endpoint.specs.Steps.{Tried};
ghost use Rattle.session.specs.Queues.{no_queue};
ghost use Rattle.session.specs.Views.{view, answered, OnWire};

use super::Session;
use definitions::numbers::IncomingChannel;
use frames::performatives::Begin;
use frames::session::SessionFrame;
use queue::Queue;
use refusals::errors::SessionInnerError;
use rows::keeper::Keeper;
use states::event::SessionEvent;

impl<K: Keeper> Session<K> {
    /// Puts our begin on the wire.
    pub(crate) fn send_begin(
        &mut self,
        wire: &mut Queue<'_, SessionFrame>,
    ) -> Result<(), SessionInnerError>
        ensures { OnWire K.Keeper (view self.old) wire.old our_begin (answered (λ _. done) result) (view self.new) wire.new }
    {
        self.send(self.begin(), wire)?;
        self.local_state.advance(SessionEvent::OurBegin, 0);
        Ok(())
    }

    /// Takes the peer's channel, its next outgoing id and its incoming window.
    pub(crate) fn on_incoming_begin(&mut self, channel: IncomingChannel, begin: Begin)
        ensures { Tried K.Keeper (view self.old) no_queue (peer_begin channel begin) (Ok done) [] [] (view self.new) }
    {
        self.incoming_channel = Some(channel);
        self.next_incoming_id = begin.next_outgoing_id;
        self.remote_incoming_window = begin.incoming_window;
        self.local_state.advance(SessionEvent::PeerBegin, 0);
    }
}
