//! Row memory: the text of every value, one after the other, and which row has which. Values are written behind one
//! another and read where they were written.
ghost use Rattle.std.specs.Prelude.{◌≤◌, vec_len, vec_capacity};

use frames::session::Payload;
use rows::row::Row;
use std::alloc::{AllocError, Global};

/// A row, and where the text of its value lies.
#[derive(Clone, Copy)]
pub struct RowValue {
    pub row: Row,
    pub payload: Payload,
}

/// At most `size` bytes of text and at most `most` values. The memory is taken once, at opening, and text
/// that was written is never moved: a transfer may still refer to it.
// Vectors, and no map or strings: no memory is taken after opening, and a transfer names its text by place and length.
#[derive(Drop)]
pub struct RowMemory {
    text: Vec<u8>,
    values: Vec<RowValue>,
    // The limits are exact, where a vector may have more capacity than was asked for.
    size: u32,
    most: u32,
    ghost text_fits: { vec_len text ≤ size },
    ghost text_room: { size ≤ vec_capacity text },
    ghost values_fit: { vec_len values ≤ most },
    ghost values_room: { most ≤ vec_capacity values },
}

impl RowMemory {
    ghost use Rattle.std.specs.Prelude.{◌≡◌, IfOk};
    ghost use Rattle.std.specs.Option.{option_map};
    ghost use Rattle.rows.specs.Keys.{key_of};
    ghost use Rattle.outbox.specs.Memory.{text_in, values_in, room_for, part_of, place_of, value_of, is_other, Empty, Written};

    /// An empty memory with room for `size` bytes of text and `most` values.
    pub fn new(heap: Global, size: u32, most: u32) -> Result<RowMemory, AllocError>
        ensures { IfOk result (λ m. Empty m size most) }
    {
        let text = Vec::with_capacity(heap, size as usize)?;
        let values = Vec::with_capacity(heap, most as usize)?;
        Ok(RowMemory {
            text,
            values,
            size,
            most,
        })
    }

    /// Where a value of `len` bytes would be written, if it has room.
    pub(crate) fn room_for(&self, len: usize) -> Option<Payload>
        ensures { result ≡ room_for self.now len }
    {
        let place = self.text.len();
        let fits = len <= self.size as usize - place && self.values.len() < self.most as usize;
        fits.then(|| Payload {
            place: place as u32,
            len: len as u32,
        })
    }

    /// The bytes that a payload names, if they are all there.
    pub fn read(&self, payload: Payload) -> Option<&[u8]>
        ensures { option_map (λ x. x.now) result ≡ part_of (text_in self.now) payload }
    {
        let start = payload.place as usize;
        let end = start + payload.len as usize;
        self.text.get(start..end)
    }

    /// Every value that was written, the oldest first.
    pub fn values(&self) -> &[RowValue]
        ensures { result.now ≡ values_in self.now }
    {
        self.values.as_slice()
    }

    /// The row's value, if it has one: what was written for it last.
    pub(crate) fn value(&self, row: Row) -> Option<&[u8]>
        ensures { option_map (λ x. x.now) result ≡ value_of self.now (key_of row) }
    {
        self.place(row).and_then(|payload| self.read(payload))
    }

    /// Whether the row has a value, and it is not `text`.
    pub(crate) fn differs(&self, row: Row, text: &[u8]) -> bool
        ensures { result ≡ is_other (value_of self.now (key_of row)) text.now }
    {
        self.value(row).is_some_and(|value| value != text)
    }

    /// Where the row's value lies.
    fn place(&self, row: Row) -> Option<Payload>
        ensures { result ≡ place_of (key_of row) (values_in self.now) }
    {
        self.values
            .iter()
            .rev()
            .find(|value| value.row == row)
            .map(|value| value.payload)
    }

    /// Writes a value of the row, or nothing where it has no room.
    pub(crate) fn write(&mut self, row: Row, text: &[u8]) -> Option<Payload>
        ensures { Written self.old row text.now result self.new }
    {
        let payload = self.room_for(text.len())?;
        // It cannot fail: its memory was taken at opening.
        self.text.extend_from_slice(text).unwrap();
        self.values.push_reserved(RowValue { row, payload });
        Some(payload)
    }
}
