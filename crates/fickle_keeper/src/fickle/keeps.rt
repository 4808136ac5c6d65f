//! The fickle keeper as a keeper.
ghost use Rattle.std.specs.Prelude.{◌≡◌, None};
ghost use Rattle.rows.specs.Meaning.{Same};
ghost use Rattle.fickle_keeper.specs.Fickle.{stand, Pledges, Settles};
ghost use Rattle.fickle_keeper.specs.Restores;

use super::FickleKeeper;
use definitions::link_number::LinkNumber;
use definitions::numbers::{DeliveryState, OutputHandle};
use frames::link::LinkFlow;
use rows::answers::{KeeperError, Standing};
use rows::keeper::Keeper;
use rows::pending::PendingRow;
use rows::row::Row;

impl Keeper for FickleKeeper {
    ghost stands = { stand };

    ghost pledges = { Pledges };

    ghost settles = { Settles };

    ghost restores = { Restores.restores };

    fn ask(&self, row: Row) -> Standing {
        if self.holds(row) {
            Standing::Pending
        } else if self.shut || self.held.is_some() {
            Standing::Neither
        } else {
            Standing::Place
        }
    }

    fn pledge(&mut self, row: Row) -> Result<(), KeeperError> {
        self.ask(row).admit(row.link())?;
        self.held = Some(PendingRow {
            row,
            state: DeliveryState::None,
        });
        Ok(())
    }

    fn settle(&mut self, row: Row) -> bool {
        if !self.holds(row) {
            return false;
        }
        self.held = None;
        true
    }

    fn note(&mut self, row: Row, state: DeliveryState) -> bool {
        if !self.holds(row) {
            return false;
        }
        self.held = Some(PendingRow { row, state });
        true
    }

    fn close(&mut self, link: LinkNumber) {
        self.shut = !self.shut;
        if self.held.is_some_and(|held| held.row.link() == link) {
            self.held = None;
        }
    }

    fn reply(&mut self, _flow: LinkFlow, _handle: OutputHandle) -> Option<LinkFlow>
        ensures keeps { Same stand self.old self.new }
        ensures answers { result ≡ None }
    {
        None
    }
}
