//! What a session holds.
ghost use Rattle.std.specs.Prelude.{◌≡◌, ◌+◌, ◌≤◌, vec_len, vec_capacity};
ghost use Rattle.deliveries.specs.Backlogs.{marked};

use definitions::numbers::{DeliveryNumber, IncomingChannel, SequenceNo, TransferNumber};
use deliveries::backlog::Backlog;
use deliveries::book::Booked;
use endpoint::answers::SessionStopReason;
use endpoint::opening::Opening;
use links::links::Links;
use states::state::SessionState;

mod begins;
mod ends;
mod linking;
mod parts;

/// How many transfers can wait, and how many deliveries can be unsettled.
pub(crate) const DELIVERIES: usize = 256;

/// A session, which owns its keeper. Its memory is taken at opening, and none after.
#[derive(Drop)]
pub struct Session<K> {
    pub(crate) keeper: K,
    opening: Opening,
    pub(crate) local_state: SessionState,
    /// Set once, by the peer's end.
    session_stop_reason: Option<SessionStopReason>,
    /// The channel of the peer's begin.
    incoming_channel: Option<IncomingChannel>,
    next_outgoing_id: TransferNumber,
    next_outgoing_delivery_id: DeliveryNumber,
    next_incoming_id: TransferNumber,
    /// How many transfers the peer still takes, as far as it told.
    remote_incoming_window: SequenceNo,
    links: Links,
    /// The deliveries that were sent and are not settled.
    // A list and no map: an insert into a map may ask for memory, and no call after opening may.
    delivery_tag_by_id: Vec<Booked>,
    /// The transfers that wait for the peer's window.
    remote_incoming_window_exhausted_buffer: Backlog,
    ghost book_reserved: { 256 ≤ vec_capacity delivery_tag_by_id },
    ghost backlog_reserved: { 256 ≤ vec_capacity remote_incoming_window_exhausted_buffer.waiting },
    ghost backlog_fits: { vec_len remote_incoming_window_exhausted_buffer.waiting ≤ 256 },
    // A place of the book is kept for each transfer that is to be booked when it goes out.
    ghost kept: { remote_incoming_window_exhausted_buffer.reserved ≡ marked remote_incoming_window_exhausted_buffer.waiting.items },
    ghost book_fits: { vec_len delivery_tag_by_id + remote_incoming_window_exhausted_buffer.reserved ≤ 256 },
}
