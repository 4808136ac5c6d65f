//! The fickle keeper.
ghost use Rattle.std.specs.Prelude.{◌≡◌};
ghost use Rattle.rows.specs.Keys.{Key, key_of};
ghost use Rattle.rows.specs.Meaning.{free, is_pending};
ghost use Rattle.fickle_keeper.specs.Fickle.{stand};

use rows::pending::PendingRow;
use rows::row::Row;

pub mod keeps;

/// At most one row; while `shut`, no place for another.
#[derive(Clone, Copy)]
pub struct FickleKeeper {
    held: Option<PendingRow>,
    shut: bool,
}

impl FickleKeeper {
    /// Nothing is pending, and every row has a place.
    pub fn new() -> FickleKeeper
        ensures { (k : Key) → stand result k ≡ free }
    {
        FickleKeeper {
            held: None,
            shut: false,
        }
    }

    /// Whether the row is the one that is held.
    fn holds(&self, row: Row) -> bool
        ensures { result ≡ is_pending (stand self.now (key_of row)) }
    {
        self.held.is_some_and(|held| held.row == row)
    }
}
