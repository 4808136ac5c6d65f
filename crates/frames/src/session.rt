//! What goes over the wire: a frame on a channel.
use crate::performatives::{Attach, Begin, Detach, Disposition, End, Flow, Transfer};

/// The message that a transfer carries: `len` bytes of row memory from `place` on.
// A place and no slice: frames are copied, and outlive a borrow of the memory.
#[derive(Clone, Copy)]
pub struct Payload {
    pub place: u32,
    pub len: u32,
}

/// A frame that a session puts out.
#[derive(Clone, Copy)]
pub struct SessionFrame {
    pub channel: u16,
    pub body: SessionFrameBody,
}

#[derive(Clone, Copy)]
pub enum SessionFrameBody {
    Begin(Begin),
    Attach(Attach),
    Flow(Flow),
    Transfer {
        performative: Transfer,
        payload: Payload,
    },
    Disposition(Disposition),
    Detach(Detach),
    End(End),
}
