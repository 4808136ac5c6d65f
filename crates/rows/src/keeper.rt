//! The trait that every keeper implements.
ghost use Rattle.std.specs.Prelude.{◌≡◌, true};
ghost use Rattle.definitions.specs.LinkNumbers.{number_of};
ghost use Rattle.rows.specs.Keys.{Key, key_of};
ghost use Rattle.rows.specs.Meaning.{Stand, standing, Same, Pledge, Settle, Note, Close, Pairs};

use crate::answers::{KeeperError, Standing};
use crate::row::Row;
use definitions::link_number::LinkNumber;
use definitions::numbers::{DeliveryState, OutputHandle};
use frames::link::LinkFlow;

/// Holds the rows that are pending, each with its delivery state.
///
/// A keeper means, by `stands`, how each row stands with it: pending with a state, or not pending with a
/// place or without one. The contracts speak of that meaning alone. Which rows have a place, how places
/// change, and what `reply` answers is each keeper's own affair, but for the law.
pub trait Keeper {
    // How each row stands.
    ghost stands: { Self → Key → Stand };

    // That a pledge of the row, and a settling of it, may lead from one keeper to the other.
    ghost pledges: { Self → Key → Self → Type 0 };

    ghost settles: { Self → Key → Self → Type 0 };

    /// How the row stands.
    fn ask(&self, row: Row) -> Standing
        ensures { (standing result).given (stands self.now (key_of row)) ≡ true };

    /// Makes the row pending, with no delivery state, or refuses it exactly as `ask` would have told.
    fn pledge(&mut self, row: Row) -> Result<(), KeeperError>
        ensures { Pledge stands pledges self.old (key_of row) result self.new };

    /// Removes the row, and tells whether it was pending.
    fn settle(&mut self, row: Row) -> bool
        ensures { Settle stands settles self.old (key_of row) result self.new };

    /// Changes the state of the row, and tells whether it was pending.
    // A row and a state, and below a flow and a handle, go side by side in one call alone, and so have no struct.
    fn note(&mut self, row: Row, state: DeliveryState) -> bool
        ensures { Note stands self.old (key_of row) state result self.new };

    /// Removes all rows of the link.
    fn close(&mut self, link: LinkNumber)
        ensures { Close stands self.old (number_of link) self.new };

    /// Answers a flow of the peer's on a link, under the output handle of the link, or does not.
    fn reply(&mut self, flow: LinkFlow, handle: OutputHandle) -> Option<LinkFlow>
        ensures { Same stands self.old self.new };

    // Pledging and then settling a row, with nothing or just such pairs between, restores all rows and places.
    ghost restores: { (s t : Self) → Pairs pledges settles s t → Same stands s t };
}
