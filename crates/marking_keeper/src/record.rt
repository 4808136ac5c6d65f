//! An application's record of a row.
ghost use Rattle.std.specs.Prelude.{◌≡◌};
ghost use Rattle.rows.specs.Keys.{key_of};
ghost use Rattle.marking_keeper.specs.Records.{naming};

use definitions::numbers::DeliveryState;
use names::octets::DeliveryTag;
use rows::row::Row;

/// A link number and a tag as the application has them, and the mark of a keeper.
///
/// A record may name no row, where its link number is above 63 or its tag too long; and several records may
/// name one row.
#[derive(Clone, Copy)]
pub struct Record {
    pub link: u32,
    pub tag: DeliveryTag,
    /// The delivery state of the row, while it is pending.
    pub mark: Option<DeliveryState>,
}

impl Record {
    /// Whether the record names the row.
    pub(crate) fn names(&self, row: Row) -> bool
        ensures { result ≡ naming (key_of row) self.now }
    {
        // A tag that is too long holds no bytes, and would pass for an empty one.
        self.tag.fits()
            && self.link == u32::from(row.link().get())
            && self.tag.as_slice() == row.tag().as_slice()
    }
}
