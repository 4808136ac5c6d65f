//! Links are allocated, deallocated and attached.
ghost use Rattle.std.specs.Prelude.{[], Ok};
ghost use Rattle.endpoint.specs.Calls.{done, gave, was_used, allocate, deallocate, our_attach, peer_attach};
ghost use Rattle.endpoint.specs.Objections.{name_fits};
ghost use Rattle.endpoint.specs.Steps.{Tried};
ghost use Rattle.session.specs.Queues.{no_queue, Fits};
ghost use Rattle.session.specs.Views.{view, answered, OnWire, ToLinks};

use super::Session;
use crate::queues::put;
use definitions::numbers::{InputHandle, OutputHandle};
use frames::link::{LinkFrame, LinkItem};
use frames::performatives::Attach;
use frames::session::{SessionFrame, SessionFrameBody};
use links::relay::LinkRelay;
use names::octets::Name;
use queue::Queue;
use refusals::errors::SessionInnerError;
use rows::keeper::Keeper;

impl<K: Keeper> Session<K> {
    /// Gives a new link its output handle.
    pub(crate) fn allocate_link(
        &mut self,
        name: Name,
        link: u32,
    ) -> Result<OutputHandle, SessionInnerError>
        ensures { Tried K.Keeper (view self.old) no_queue (allocate name link) (answered gave result) [] [] (view self.new) }
    {
        check_name(name)?;
        let handle = self.links.allocate(name, link, LinkRelay::new_sender())?;
        Ok(handle)
    }

    /// Frees an output handle with its name, and tells whether it was in use.
    pub(crate) fn deallocate_link(&mut self, handle: OutputHandle) -> bool
        ensures { Tried K.Keeper (view self.old) no_queue (deallocate handle) (Ok (was_used result)) [] [] (view self.new) }
    {
        self.links.deallocate(handle)
    }

    /// Puts our attach on the wire, as given.
    pub(crate) fn on_outgoing_attach(
        &mut self,
        attach: Attach,
        wire: &mut Queue<'_, SessionFrame>,
    ) -> Result<(), SessionInnerError>
        ensures { OnWire K.Keeper (view self.old) wire.old (our_attach attach) (answered (λ _. done) result) (view self.new) wire.new }
    {
        check_name(attach.name)?;
        self.send(SessionFrameBody::Attach(attach), wire)
    }

    /// Puts the link that has the name of the peer's attach under the peer's handle, and tells the link.
    pub(crate) fn on_incoming_attach(
        &mut self,
        attach: Attach,
        items: &mut Queue<'_, LinkItem>,
    ) -> Result<(), SessionInnerError>
        ensures { ToLinks K.Keeper (view self.old) items.old (peer_attach attach) (answered (λ _. done) result) (view self.new) items.new }
    {
        check_name(attach.name)?;
        let handle = InputHandle::from(attach.handle);
        let link = self.links.attachable(attach.name, handle)?;
        let frame = LinkFrame::Attach(attach);
        put(
            items,
            LinkItem { link, frame },
            SessionInnerError::LinkShort,
        )?;
        self.links.attach(link, handle, attach.rcv_settle_mode);
        Ok(())
    }
}

/// Refuses a name that has not 1 to 64 bytes.
fn check_name(name: Name) -> Result<(), SessionInnerError>
    ensures { Fits (name_fits name) result }
{
    if name.len() == 0 || !name.fits() {
        return Err(SessionInnerError::BadLength(name.len()));
    }
    Ok(())
}
