//! An edit of a row, and why one is refused.
ghost use Rattle.std.specs.Prelude.{◌≡◌, Some};
ghost use Rattle.outbox.specs.Sending.{kept_off, text_of};
ghost use Rattle.outbox.specs.declared.edit.EditError.TheVariants.{WireFull};

use queue::Full;
use rows::answers::KeeperError;
use rows::row::Row;
use std::error::Error;
use std::fmt;

/// A row's value changes from one text to another.
#[derive(Clone, Copy)]
pub struct Edit<'a> {
    pub row: Row,
    pub was: &'a [u8],
    pub becomes: &'a [u8],
}

/// Why an edit is refused. Nothing has changed then.
#[derive(Clone, Copy, PartialEq, Eq, Debug)]
pub enum EditError {
    /// The row has a value, and it is not the one that the edit changes.
    ValueDiffers,
    /// The row is pending already.
    RowOpen,
    /// The keeper has no place for the row.
    NoPlace,
    /// Every slot of the wire queue is in use.
    WireFull,
    /// The new value has no room in row memory.
    MemoryFull,
}

impl fmt::Display for EditError {
    ghost output = { λ e. Some (text_of e) };

    fn fmt<W: fmt::Write>(&self, f: &mut fmt::Formatter<W>) -> fmt::Result {
        f.write_str(match self {
            EditError::ValueDiffers => "the row has another value",
            EditError::RowOpen => "the row is pending",
            EditError::NoPlace => "the keeper has no place for the row",
            EditError::WireFull => "the wire queue is full",
            EditError::MemoryFull => "row memory is full",
        })
    }
}

impl Error for EditError {}

impl From<KeeperError> for EditError {
    ghost from_gives = { λ e r. r ≡ kept_off e };

    fn from(e: KeeperError) -> Self {
        match e {
            KeeperError::RowOpen(_) => Self::RowOpen,
            KeeperError::NoPlace(_) => Self::NoPlace,
        }
    }
}

impl From<Full> for EditError {
    ghost from_gives = { λ _ r. r ≡ WireFull };

    fn from(_: Full) -> Self {
        Self::WireFull
    }
}
