//! What sends edited rows.
use crate::memory::RowMemory;

/// A keeper, row memory, and the id of the next delivery. Edits go out on channel 0, on the handle that
/// equals the row's link number.
#[derive(Drop)]
pub struct Outbox<K> {
    pub keeper: K,
    pub memory: RowMemory,
    pub next_delivery_id: u32,
}
