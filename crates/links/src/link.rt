//! How a link stands.
ghost use Rattle.std.specs.Prelude.{◌≡◌};
ghost use Rattle.links.specs.Links.{awaits_under, attached_under};

use crate::relay::LinkRelay;
use definitions::numbers::{InputHandle, OutputHandle};

/// How the link of a link number stands.
// No `Option` of two states: that there is none is one of the three that the state of a number goes through.
#[derive(Clone, Copy)]
pub enum LinkState {
    /// There is none.
    Idle,
    /// It is allocated, and waits for the peer's attach.
    Awaiting(LinkRelay<OutputHandle>),
    /// It is attached, under a handle of the peer's.
    Attached {
        input_handle: InputHandle,
        relay: LinkRelay<OutputHandle>,
    },
}

impl LinkState {
    /// Whether the link waits for its attach, with that output handle.
    pub(crate) fn awaits(&self, handle: OutputHandle) -> bool
        ensures { result ≡ awaits_under handle.0 self.now }
    {
        matches!(self, LinkState::Awaiting(relay) if relay.output_handle() == handle)
    }

    /// Whether the link is attached under that input handle.
    pub(crate) fn is_attached_under(&self, handle: InputHandle) -> bool
        ensures { result ≡ attached_under handle.0 self.now }
    {
        matches!(self, LinkState::Attached { input_handle, .. } if *input_handle == handle)
    }
}
