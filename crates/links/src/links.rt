//! All that a session knows of its links: they are allocated, attached and deallocated.

use crate::handle_table::HandleTable;
use crate::link::LinkState;
use crate::link_table::LinkTable;
use crate::relay::LinkRelay;
use definitions::link_number::LinkNumber;
use definitions::numbers::{InputHandle, OutputHandle, ReceiverSettleMode};
use names::octets::Name;
use refusals::errors::{AllocLinkError, SessionInnerError};
use std::alloc::{AllocError, Global};

/// The names and output handles, and the links of the link numbers.
#[derive(Drop)]
pub struct Links {
    handles: HandleTable,
    table: LinkTable,
}

impl Links {
    ghost use Rattle.std.specs.Prelude.{◌≡◌, IfOk, OnErr};
    ghost use Rattle.definitions.specs.LinkNumbers.{number_of};
    ghost use Rattle.links.specs.Relays.{mode_of};
    ghost use Rattle.links.specs.Sessions.{tables_of, none_yet, Allocatable, Allocates, Deallocates, Attachable, attached};

    /// No links yet; or an error where there is no memory for them.
    pub fn new(heap: Global) -> Result<Links, AllocError>
        ensures { IfOk result (λ l. tables_of l ≡ none_yet) }
    {
        Ok(Links {
            handles: HandleTable::new(heap)?,
            table: LinkTable::new(),
        })
    }

    /// Gives a new link of that name and number its output handle, or refuses and changes nothing.
    // Name and number go side by side down one call, from the session to `allocatable`, and so have no struct.
    pub fn allocate(
        &mut self,
        name: Name,
        link: u32,
        relay: LinkRelay<()>,
    ) -> Result<OutputHandle, AllocLinkError>
        ensures allocated { Allocates (tables_of self.old) name link (mode_of relay) result (tables_of self.new) }
        ensures refused { OnErr result (self.new ≡ self.old) }
    {
        let number = self.allocatable(name, link)?;
        let handle = self.handles.give(name);
        let relay = relay.with_output_handle(handle);
        self.table.set(number, LinkState::Awaiting(relay));
        Ok(handle)
    }

    /// Whether a link of that name and number can be allocated.
    fn allocatable(&self, name: Name, link: u32) -> Result<LinkNumber, AllocLinkError>
        ensures { Allocatable (tables_of self.now) name link result }
    {
        if self.handles.has(name) {
            return Err(AllocLinkError::DuplicatedLinkName(link));
        }
        if self.handles.is_full() {
            return Err(AllocLinkError::HandlesFull);
        }
        LinkNumber::new(link)
            .filter(|number| self.table.is_idle(*number))
            .ok_or(AllocLinkError::LinkNumber(link))
    }

    /// Frees the handle with its name, and tells whether it was in use. A link that is attached stays so.
    pub fn deallocate(&mut self, handle: OutputHandle) -> bool
        ensures { Deallocates (tables_of self.old) handle result (tables_of self.new) }
    {
        if !self.handles.is_used(handle) {
            return false;
        }
        self.handles.release(handle);
        self.table.forget(handle);
        true
    }

    /// The link that an attach of the peer's, with that name and handle, is for.
    pub fn attachable(
        &self,
        name: Name,
        handle: InputHandle,
    ) -> Result<LinkNumber, SessionInnerError>
        ensures { Attachable (tables_of self.now) name handle result }
    {
        let output = self
            .handles
            .find(name)
            .ok_or(SessionInnerError::RemoteAttachingLinkNameNotFound(handle))?;
        let number = self
            .table
            .awaiting(output)
            .ok_or(SessionInnerError::HandleInUse(handle))?;
        if self.table.has_attached(handle) {
            return Err(SessionInnerError::HandleInUse(handle));
        }
        Ok(number)
    }

    /// Puts a link that waits for its attach under the peer's handle, with the peer's settle mode.
    pub fn attach(&mut self, link: LinkNumber, handle: InputHandle, mode: ReceiverSettleMode)
        ensures { tables_of self.new ≡ attached (tables_of self.old) (number_of link) handle mode }
    {
        if let LinkState::Awaiting(relay) = self.table.get(link) {
            let state = LinkState::Attached {
                input_handle: handle,
                relay: relay.with_receiver_settle_mode(mode),
            };
            self.table.set(link, state);
        }
    }
}
