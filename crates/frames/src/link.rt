//! What belongs to one link.
use crate::performatives::{Attach, Detach};
use definitions::link_number::LinkNumber;
use definitions::numbers::{Handle, SequenceNo};

/// The part of a flow that belongs to a link.
#[derive(Clone, Copy)]
pub struct LinkFlow {
    pub handle: Handle,
    pub delivery_count: Option<SequenceNo>,
    pub link_credit: Option<u32>,
    pub available: Option<u32>,
    pub drain: bool,
    pub echo: bool,
}

/// What tells a link of something that the peer did: which link, and the peer's frame.
#[derive(Clone, Copy)]
pub struct LinkItem {
    pub link: LinkNumber,
    pub frame: LinkFrame,
}

#[derive(Clone, Copy)]
pub enum LinkFrame {
    Attach(Attach),
    Detach(Detach),
}
