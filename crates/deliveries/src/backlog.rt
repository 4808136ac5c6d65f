//! Transfers that wait for the peer's window.
use crate::book::BookEntry;
use frames::performatives::Transfer;
use frames::session::Payload;

/// A transfer that waits. It gets its delivery id when it goes out.
#[derive(Clone, Copy)]
pub struct Waiting {
    pub performative: Transfer,
    pub payload: Payload,
    pub part: Part,
}

/// Which part of its delivery a transfer carries.
#[derive(Clone, Copy)]
pub enum Part {
    /// The first, with what is to be booked when it goes out: nothing of a settled one, nor after the peer detached the
    /// link.
    First(Option<BookEntry>),
    /// A later one, of which nothing is booked.
    Continuation,
}

/// The transfers that wait, the oldest first, and how many places of the book are kept for them.
#[derive(Drop)]
pub struct Backlog {
    // A list whose memory is taken at opening, and no `VecDeque` that grows: no call after opening may ask for memory.
    pub waiting: Vec<Waiting>,
    // A number of its own beside the list: else each transfer that is submitted would count all that wait.
    pub reserved: usize,
}
