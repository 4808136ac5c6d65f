//! What keepers hold of a row that is pending.
use crate::row::Row;
use definitions::numbers::DeliveryState;

/// A pending row with its delivery state.
#[derive(Clone, Copy, PartialEq, Eq, Debug)]
pub struct PendingRow {
    pub row: Row,
    pub state: DeliveryState,
}
