//! What a user is told of a refusal.
ghost use Rattle.std.specs.Prelude.{◌≡◌};
ghost use Rattle.refusals.specs.declared.layer.Layer.TheVariants.{Session};
ghost use Rattle.refusals.specs.Refusals.{refusal, of_state, of_alloc, of_relay, of_keeper, of_session};
ghost use Rattle.refusals.specs.Told.{tells, told};

use crate::errors::{AllocLinkError, Error, LinkRelayError, SessionInnerError, SessionStateError};
use crate::layer::Layer;
use definitions::numbers::InputHandle;
use rows::answers::KeeperError;

/// A refusal by its number, the layer that refuses, and its subject.
#[derive(Clone, Copy, PartialEq, Eq, Debug)]
pub struct Told {
    // A number, since that is what a user is told; the kinds themselves are the errors.
    pub number: u8,
    pub layer: Layer,
    pub subject: u64,
}

impl Error {
    /// The refusal's number, layer and subject.
    pub fn told(self) -> Told
        ensures { result ≡ tells (refusal self) }
    {
        match self {
            Error::State(e) => of_state(e),
            Error::Session(e) => of_session(e),
        }
    }
}

// Functions and no `From`: a whole error is told, and its parts in this file alone.

fn of_state(e: SessionStateError) -> Told
    ensures { result ≡ tells (of_state e) }
{
    let (number, state) = match e {
        SessionStateError::Stopped(state) => (1, state),
        SessionStateError::IllegalState(state) => (2, state),
        SessionStateError::SessionNotMapped(state) => (3, state),
    };
    Told {
        number,
        layer: Layer::Engine,
        subject: u64::from(state.number()),
    }
}

fn of_session(e: SessionInnerError) -> Told
    ensures { result ≡ tells (of_session e) }
{
    match e {
        SessionInnerError::BadLength(len) => by_session(4, len as u64),
        SessionInnerError::Alloc(e) => of_alloc(e),
        SessionInnerError::RemoteAttachingLinkNameNotFound(handle) => by_handle(8, handle),
        SessionInnerError::HandleInUse(handle) => by_handle(9, handle),
        SessionInnerError::Relay(e) => of_relay(e),
        SessionInnerError::UntaggedFirst(handle) => by_handle(12, handle),
        SessionInnerError::BacklogFull => by_session(13, 0),
        SessionInnerError::RowOpen(link) => by_session(14, u64::from(link.get())),
        SessionInnerError::IdOpen(id) => by_session(15, u64::from(id)),
        SessionInnerError::BookFull => by_session(16, 0),
        SessionInnerError::Keeper(e) => of_keeper(e),
        SessionInnerError::WireShort(count) => by_session(18, count as u64),
        SessionInnerError::LinkShort => by_session(19, 0),
    }
}

fn of_alloc(e: AllocLinkError) -> Told
    ensures { result ≡ tells (of_alloc e) }
{
    match e {
        AllocLinkError::DuplicatedLinkName(link) => by_session(5, u64::from(link)),
        AllocLinkError::HandlesFull => by_session(6, 0),
        AllocLinkError::LinkNumber(link) => by_session(7, u64::from(link)),
    }
}

fn of_relay(e: LinkRelayError) -> Told
    ensures { result ≡ tells (of_relay e) }
{
    match e {
        LinkRelayError::UnattachedHandle(handle) => by_handle(10, handle),
        LinkRelayError::TransferFrameToSender(handle) => by_handle(11, handle),
    }
}

fn of_keeper(e: KeeperError) -> Told
    ensures { result ≡ tells (of_keeper e) }
{
    let (number, link) = match e {
        KeeperError::RowOpen(link) => (14, link),
        KeeperError::NoPlace(link) => (17, link),
    };
    Told {
        number,
        layer: Layer::Keeper,
        subject: u64::from(link.get()),
    }
}

fn by_session(number: u8, subject: u64) -> Told
    ensures { result ≡ told number Session subject }
{
    Told {
        number,
        layer: Layer::Session,
        subject,
    }
}

fn by_handle(number: u8, handle: InputHandle) -> Told
    ensures { result ≡ told number Session handle.0 }
{
    by_session(number, u64::from(handle.0))
}
