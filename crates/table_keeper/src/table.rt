//! The table: its opening, and looks at one beside the trait's.
ghost use Rattle.std.specs.Prelude.{◌≤◌, vec_len, vec_capacity};
ghost use Rattle.table_keeper.specs.Slots.{keys_in, Distinct};

use definitions::numbers::DeliveryState;
use rows::pending::PendingRow;
use rows::row::Row;
use std::alloc::{AllocError, Global};

pub mod keeps;

/// How many rows can be pending at once.
pub const PLACES: usize = 256;

/// At most 256 pending rows, no row twice, in memory that has room for all of them.
// A list and no map: an insert into a map may ask for memory, and no call after opening may.
#[derive(Drop)]
pub struct TableKeeper {
    slots: Vec<PendingRow>,
    ghost reserved: { 256 ≤ vec_capacity slots },
    ghost few: { vec_len slots ≤ 256 },
    ghost apart: { Distinct (keys_in slots.items) },
}

impl TableKeeper {
    ghost use Rattle.std.specs.Prelude.{◌≡◌, IfOk, position};
    ghost use Rattle.rows.specs.Keys.{Key, key_of};
    ghost use Rattle.rows.specs.Meaning.{free, state_of};
    ghost use Rattle.table_keeper.specs.Counts.{Counts};
    ghost use Rattle.table_keeper.specs.Slots.{is_of};
    ghost use Rattle.table_keeper.specs.Table.{held, slots_of, stand};

    /// A table in which nothing is pending, or an error where there is no memory for 256 rows.
    pub fn new(heap: Global) -> Result<TableKeeper, AllocError>
        ensures { IfOk result (λ t. (k : Key) → stand t k ≡ free) }
    {
        let slots = Vec::with_capacity(heap, PLACES)?;
        Ok(TableKeeper { slots })
    }

    /// The delivery state of the row, if it is pending.
    pub fn state(&self, row: Row) -> Option<DeliveryState>
        ensures { result ≡ state_of (stand self.now (key_of row)) }
    {
        self.held(row)
    }

    /// What is held of the row.
    fn held(&self, row: Row) -> Option<DeliveryState>
        ensures { result ≡ held self.now (key_of row) }
    {
        self.slots
            .iter()
            .find(|slot| slot.row == row)
            .map(|slot| slot.state)
    }

    /// How many rows are pending.
    pub fn pending_count(&self) -> usize
        ensures { Counts (stand self.now) result }
    {
        self.slots.len()
    }

    /// Where the row is, if it is pending.
    fn find(&self, row: Row) -> Option<usize>
        ensures { result ≡ position (is_of (key_of row)) (slots_of self.now) }
    {
        self.slots.iter().position(|slot| slot.row == row)
    }
}
