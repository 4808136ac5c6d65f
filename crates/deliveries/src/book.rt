//! The book of unsettled deliveries.
use definitions::numbers::{DeliveryNumber, InputHandle};
use rows::row::Row;

/// What is booked of a delivery: its row, and its link by the peer's handle.
#[derive(Clone, Copy)]
pub struct BookEntry {
    pub row: Row,
    pub input_handle: InputHandle,
}

/// An entry of the book, under its delivery id.
#[derive(Clone, Copy)]
pub struct Booked {
    pub delivery_id: DeliveryNumber,
    pub entry: BookEntry,
}
