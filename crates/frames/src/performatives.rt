//! The seven frame bodies of a session (Part 2, 2.7.2 to 2.7.8), each with its fields in Part 2's order.
//!
//! A field is optional where Part 2 neither makes it mandatory nor gives it a default. A state or an
//! error condition is never optional: its absence is `DeliveryState::None`, and 0. Left out are sources,
//! targets, maps, capabilities and properties.
use definitions::numbers::{
    DeliveryNumber, DeliveryState, ErrorCondition, Handle, ReceiverSettleMode, Role,
    SenderSettleMode, SequenceNo, TransferNumber,
};
use names::octets::{DeliveryTag, Name};

/// Begins a session on a channel.
#[derive(Clone, Copy)]
pub struct Begin {
    /// The channel on which the peer began; a begin that answers carries it.
    pub remote_channel: Option<u16>,
    pub next_outgoing_id: TransferNumber,
    pub incoming_window: u32,
    pub outgoing_window: u32,
    /// The largest handle that the peer may use.
    pub handle_max: u32,
}

/// Attaches a link to a session.
#[derive(Clone, Copy)]
pub struct Attach {
    pub name: Name,
    pub handle: Handle,
    pub role: Role,
    pub snd_settle_mode: SenderSettleMode,
    pub rcv_settle_mode: ReceiverSettleMode,
    pub incomplete_unsettled: bool,
    pub initial_delivery_count: Option<SequenceNo>,
    pub max_message_size: Option<u64>,
}

/// Tells the windows of a session and, where it names a handle, the state of a link.
// The link's part is no `LinkFlow` here: the record has Part 2's fields in Part 2's order.
#[derive(Clone, Copy)]
pub struct Flow {
    pub next_incoming_id: Option<TransferNumber>,
    pub incoming_window: u32,
    pub next_outgoing_id: TransferNumber,
    pub outgoing_window: u32,
    pub handle: Option<Handle>,
    pub delivery_count: Option<SequenceNo>,
    pub link_credit: Option<u32>,
    pub available: Option<u32>,
    pub drain: bool,
    pub echo: bool,
}

/// Carries a message, or a part of one.
#[derive(Clone, Copy)]
pub struct Transfer {
    pub handle: Handle,
    pub delivery_id: Option<DeliveryNumber>,
    pub delivery_tag: Option<DeliveryTag>,
    pub message_format: Option<u32>,
    pub settled: Option<bool>,
    pub more: bool,
    pub rcv_settle_mode: Option<ReceiverSettleMode>,
    pub state: DeliveryState,
    pub resume: bool,
    pub aborted: bool,
    pub batchable: bool,
}

/// Tells the state of the deliveries from `first` to `last`; without `last`, of `first` alone.
#[derive(Clone, Copy)]
pub struct Disposition {
    pub role: Role,
    pub first: DeliveryNumber,
    pub last: Option<DeliveryNumber>,
    pub settled: bool,
    pub state: DeliveryState,
    pub batchable: bool,
}

/// Detaches a link; with `closed` it is closed for good.
#[derive(Clone, Copy)]
pub struct Detach {
    pub handle: Handle,
    pub closed: bool,
    /// The condition of the detach's error.
    pub condition: ErrorCondition,
}

/// Ends a session.
#[derive(Clone, Copy)]
pub struct End {
    /// The condition of the end's error.
    pub condition: ErrorCondition,
}
