//! The table as a keeper.
ghost use Rattle.std.specs.Prelude.{◌≡◌, ℕ, true};
ghost use Rattle.rows.specs.Keys.{key_of};
ghost use Rattle.rows.specs.Meaning.{standing, Same};
ghost use Rattle.rows.specs.Reply.{echoed};
ghost use Rattle.table_keeper.specs.Counts.{Counts, answered};
ghost use Rattle.table_keeper.specs.Table.{stand, Pledges, Settles};
ghost use Rattle.table_keeper.specs.Restores;

use super::{PLACES, TableKeeper};
use definitions::link_number::LinkNumber;
use definitions::numbers::{DeliveryState, OutputHandle};
use frames::link::LinkFlow;
use rows::answers::{KeeperError, Standing};
use rows::keeper::Keeper;
use rows::pending::PendingRow;
use rows::reply::echo;
use rows::row::Row;

impl Keeper for TableKeeper {
    ghost stands = { stand };

    ghost pledges = { Pledges };

    ghost settles = { Settles };

    ghost restores = { Restores.restores };

    fn ask(&self, row: Row) -> Standing
        ensures stands { (standing result).given (stand self.now (key_of row)) ≡ true }
        ensures places { (n : ℕ) → Counts (stand self.now) n → result ≡ answered (stand self.now (key_of row)) n }
    {
        match self.held(row) {
            Some(_) => Standing::Pending,
            None if self.slots.len() < PLACES => Standing::Place,
            None => Standing::Neither,
        }
    }

    fn pledge(&mut self, row: Row) -> Result<(), KeeperError> {
        self.ask(row).admit(row.link())?;
        self.slots.push_reserved(PendingRow {
            row,
            state: DeliveryState::None,
        });
        Ok(())
    }

    fn settle(&mut self, row: Row) -> bool {
        let Some(i) = self.find(row) else {
            return false;
        };
        self.slots.remove(i);
        true
    }

    fn note(&mut self, row: Row, state: DeliveryState) -> bool {
        let Some(i) = self.find(row) else {
            return false;
        };
        self.slots[i].state = state;
        true
    }

    fn close(&mut self, link: LinkNumber) {
        self.slots.retain(|slot| slot.row.link() != link);
    }

    fn reply(&mut self, flow: LinkFlow, handle: OutputHandle) -> Option<LinkFlow>
        ensures keeps { Same stand self.old self.new }
        ensures answers { result ≡ echoed flow handle }
    {
        echo(flow, handle)
    }
}
