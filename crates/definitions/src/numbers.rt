//! Handles, ids, roles, settle modes and delivery states, under the names of Part 2 and of the
//! crate that this is a port of. A number that Part 2 gives no meaning cannot be expressed.
ghost use Rattle.std.specs.Prelude.{◌≡◌};
ghost use Rattle.definitions.specs.Numbers.{state_number, terminal};

// Handles of three kinds and channels of two are types of their own, though each is a number: one must not be taken for
// another.

/// A handle as a frame carries it (Part 2, 2.8.4).
#[derive(Clone, Copy, PartialEq, Eq, Debug)]
pub struct Handle(pub u32);

/// The handle that we gave a link; our frames on the link carry it.
#[derive(Clone, Copy, PartialEq, Eq, Debug)]
pub struct OutputHandle(pub u32);

/// The handle that the peer gave a link; its frames on the link carry it.
#[derive(Clone, Copy, PartialEq, Eq, Debug)]
pub struct InputHandle(pub u32);

impl From<OutputHandle> for Handle {
    ghost from_gives = { λ ours handle. handle ≡ record { 0 = ours.0 } };

    fn from(ours: OutputHandle) -> Handle {
        Handle(ours.0)
    }
}

impl From<Handle> for InputHandle {
    ghost from_gives = { λ handle theirs. theirs ≡ record { 0 = handle.0 } };

    fn from(handle: Handle) -> InputHandle {
        InputHandle(handle.0)
    }
}

/// The channel on which our frames of a session go out.
#[derive(Clone, Copy, PartialEq, Eq, Debug)]
pub struct OutgoingChannel(pub u16);

/// The channel on which the peer's frames of a session come.
#[derive(Clone, Copy, PartialEq, Eq, Debug)]
pub struct IncomingChannel(pub u16);

/// The id of a transfer (Part 2, 2.8.9).
pub type TransferNumber = u32;

/// The id of a delivery (Part 2, 2.8.8).
pub type DeliveryNumber = u32;

/// A count that goes round (Part 2, 2.8.10).
pub type SequenceNo = u32;

/// The condition of an error, by its number; 0 is no error.
// A number and no `Option`: an application numbers its conditions, and gives 0 where it has none.
pub type ErrorCondition = u16;

/// Which end of a link speaks (Part 2, 2.8.1).
#[derive(Clone, Copy, PartialEq, Eq, Debug)]
pub enum Role {
    Sender,
    Receiver,
}

/// How the sender of a link settles (Part 2, 2.8.2): 0, 1 and 2 on the wire. Where an attach names none, it is `Mixed`.
#[derive(Clone, Copy, PartialEq, Eq, Debug)]
pub enum SenderSettleMode {
    Unsettled,
    Settled,
    Mixed,
}

/// Who settles first on a link (Part 2, 2.8.3): the receiver at once, 0 on the wire, or only after the
/// sender did, 1. Where an attach names none, it is `First`.
#[derive(Clone, Copy, PartialEq, Eq, Debug)]
pub enum ReceiverSettleMode {
    First,
    Second,
}

/// How a delivery stands at the receiver (Part 3, 3.4). `None` is the absence of a state.
// A variant and no `Option`: the states are numbered, none among them.
#[derive(Clone, Copy, PartialEq, Eq, Debug)]
pub enum DeliveryState {
    None,
    Received,
    Accepted,
    Rejected,
    Released,
    Modified,
}

impl DeliveryState {
    /// The state's number.
    // A cast, as states of sessions and layers have one: a trait for all three would only name it.
    pub fn number(self) -> u8
        ensures { result ≡ state_number self }
    {
        self as u8
    }

    /// Whether the receiver's work on the delivery is over.
    pub fn is_terminal(self) -> bool
        ensures { result ≡ terminal self }
    {
        matches!(
            self,
            DeliveryState::Accepted
                | DeliveryState::Rejected
                | DeliveryState::Released
                | DeliveryState::Modified
        )
    }
}
