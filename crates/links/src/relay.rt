//! What a session holds of a link.
ghost use Rattle.std.specs.Prelude.{◌≡◌};
ghost use Rattle.definitions.specs.declared.numbers.ReceiverSettleMode.TheVariants.{First};
ghost use Rattle.links.specs.Relays.{sender, output_of, mode_of};

use definitions::numbers::{OutputHandle, ReceiverSettleMode};

/// A link as the session passes frames on to it. `O` is its output handle, or `()` before it has one.
// An enum, though of one variant: the other one, for links on which we receive, is not here.
#[derive(Clone, Copy)]
pub enum LinkRelay<O> {
    /// A link on which we send.
    Sender {
        output_handle: O,
        /// Who settles first, as the peer's attach has it.
        receiver_settle_mode: ReceiverSettleMode,
    },
}

impl LinkRelay<()> {
    /// A sending link that has no handle yet.
    pub fn new_sender() -> LinkRelay<()>
        ensures { mode_of result ≡ First }
    {
        LinkRelay::Sender {
            output_handle: (),
            receiver_settle_mode: ReceiverSettleMode::First,
        }
    }

    /// The link under an output handle.
    pub fn with_output_handle(self, output_handle: OutputHandle) -> LinkRelay<OutputHandle>
        ensures { result ≡ sender output_handle (mode_of self) }
    {
        let LinkRelay::Sender {
            receiver_settle_mode,
            ..
        } = self;
        LinkRelay::Sender {
            output_handle,
            receiver_settle_mode,
        }
    }
}

impl LinkRelay<OutputHandle> {
    /// The handle that our frames on the link carry.
    pub fn output_handle(&self) -> OutputHandle
        ensures { result ≡ output_of self.now }
    {
        let LinkRelay::Sender { output_handle, .. } = self;
        *output_handle
    }

    /// The link with the settle mode of the peer's attach.
    pub fn with_receiver_settle_mode(self, mode: ReceiverSettleMode) -> LinkRelay<OutputHandle>
        ensures { result ≡ sender (output_of self) mode }
    {
        let LinkRelay::Sender { output_handle, .. } = self;
        LinkRelay::Sender {
            output_handle,
            receiver_settle_mode: mode,
        }
    }
}
