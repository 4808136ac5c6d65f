//! What a session is opened with.
use definitions::numbers::{DeliveryNumber, OutgoingChannel, TransferNumber};

/// The channel and the numbers of our begin, and the first ids. All values are good.
#[derive(Clone, Copy)]
pub struct Opening {
    pub outgoing_channel: OutgoingChannel,
    pub incoming_window: u32,
    pub outgoing_window: u32,
    pub handle_max: u32,
    pub initial_outgoing_id: TransferNumber,
    pub initial_delivery_id: DeliveryNumber,
}
