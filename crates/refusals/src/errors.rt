//! The errors of the session and of the engine. Each carries what it is about.
ghost use Rattle.std.specs.Prelude.{◌≡◌};
ghost use Rattle.refusals.specs.declared.errors.SessionInnerError.TheVariants.{Alloc, Relay, Keeper};
ghost use Rattle.refusals.specs.declared.errors.Error.TheVariants.{State, Session};

use definitions::link_number::LinkNumber;
use definitions::numbers::{DeliveryNumber, InputHandle};
use rows::answers::KeeperError;
use states::state::SessionState;

/// Why the engine refuses a call: the session is in the wrong state, which is told.
#[derive(Clone, Copy)]
pub enum SessionStateError {
    /// The session has stopped, or a link is to be allocated after our end.
    Stopped(SessionState),
    /// The table of states says no.
    IllegalState(SessionState),
    /// A link is to be allocated before the session is mapped.
    SessionNotMapped(SessionState),
}

/// Why a link is not allocated.
#[derive(Clone, Copy)]
pub enum AllocLinkError {
    /// The name is in use; the link number that was handed in is told.
    DuplicatedLinkName(u32),
    /// 64 output handles are in use.
    HandlesFull,
    /// The link number is above 63, or its link awaits its attach or is attached.
    LinkNumber(u32),
}

/// Why a frame finds no link that takes it, by the input handle that it names.
#[derive(Clone, Copy)]
pub enum LinkRelayError {
    /// No link is attached under the handle.
    UnattachedHandle(InputHandle),
    /// The link sends, and takes no transfers.
    TransferFrameToSender(InputHandle),
}

/// Why the session refuses a call.
#[derive(Clone, Copy)]
pub enum SessionInnerError {
    /// A name has not 1 to 64 bytes, or a tag more than 32; the length is told.
    BadLength(usize),
    Alloc(AllocLinkError),
    /// No allocated link has the name of the peer's attach, whose handle is told.
    RemoteAttachingLinkNameNotFound(InputHandle),
    /// The link has had its attach, or the input handle is taken.
    HandleInUse(InputHandle),
    Relay(LinkRelayError),
    /// The first transfer of a delivery has no tag.
    UntaggedFirst(InputHandle),
    /// The peer's window is closed, and 256 transfers wait.
    BacklogFull,
    /// The row of an unsettled first transfer is booked or waits to be.
    RowOpen(LinkNumber),
    /// The delivery id that a first transfer would get is booked.
    IdOpen(DeliveryNumber),
    /// 256 deliveries are booked or wait to be.
    BookFull,
    Keeper(KeeperError),
    /// Fewer slots of the wire queue are free than the call counts; the count is told.
    WireShort(usize),
    /// No slot of the link queue is free.
    LinkShort,
}

/// Why a call on a session is refused.
#[derive(Clone, Copy)]
pub enum Error {
    State(SessionStateError),
    Session(SessionInnerError),
}

// Each `From` is written out, since a derived one would have no contract, and what `?` makes is to be known.

impl From<AllocLinkError> for SessionInnerError {
    ghost from_gives = { λ e r. r ≡ Alloc e };

    fn from(e: AllocLinkError) -> SessionInnerError {
        SessionInnerError::Alloc(e)
    }
}

impl From<LinkRelayError> for SessionInnerError {
    ghost from_gives = { λ e r. r ≡ Relay e };

    fn from(e: LinkRelayError) -> SessionInnerError {
        SessionInnerError::Relay(e)
    }
}

impl From<KeeperError> for SessionInnerError {
    ghost from_gives = { λ e r. r ≡ Keeper e };

    fn from(e: KeeperError) -> SessionInnerError {
        SessionInnerError::Keeper(e)
    }
}

impl From<SessionStateError> for Error {
    ghost from_gives = { λ e r. r ≡ State e };

    fn from(e: SessionStateError) -> Error {
        Error::State(e)
    }
}

impl From<SessionInnerError> for Error {
    ghost from_gives = { λ e r. r ≡ Session e };

    fn from(e: SessionInnerError) -> Error {
        Error::Session(e)
    }
}
