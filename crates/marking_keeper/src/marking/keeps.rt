//! The marking keeper is a keeper.
//!
//! Beside what the trait asks, each clause `marks` says what becomes of the records, exactly, and each
//! clause `lent` that they are the ones that were lent, so that their owner knows them afterwards. No field of the
//! keeper can say that, since it holds of the keeper before a call and after it.
ghost use Rattle.std.specs.Prelude.{◌≡◌, true, map, is_ok, Some, None};
ghost use Rattle.definitions.specs.declared.numbers.DeliveryState.TheVariants.{None as NoState};
ghost use Rattle.definitions.specs.LinkNumbers.{number_of};
ghost use Rattle.rows.specs.Keys.{key_of};
ghost use Rattle.rows.specs.Meaning.{standing, Same, Pledge, Settle, Note, Close};
ghost use Rattle.rows.specs.Reply.{echoed};
ghost use Rattle.marking_keeper.specs.Records.{closed_on};
ghost use Rattle.marking_keeper.specs.Marking.{held, stand, Rule, Pledges, Settles, Remarks, SameLoan};
ghost use Rattle.marking_keeper.specs.Restores;

use super::MarkingKeeper;
use definitions::link_number::LinkNumber;
use definitions::numbers::{DeliveryState, OutputHandle};
use frames::link::LinkFlow;
use rows::answers::{KeeperError, Standing};
use rows::keeper::Keeper;
use rows::reply::echo;
use rows::row::Row;

impl<'a> Keeper for MarkingKeeper<'a> {
    ghost stands = { stand };

    ghost pledges = { Pledges };

    ghost settles = { Settles };

    ghost restores = { Restores.restores };

    fn ask(&self, row: Row) -> Standing
        ensures stands { (standing result).given (stand self.now (key_of row)) ≡ true }
        ensures place { Rule (key_of row) (held self.now) result }
    {
        // By place, as the rule of places has it.
        match self.first(row).map(|i| self.records[i].mark) {
            Some(Some(_)) => Standing::Pending,
            Some(None) => Standing::Place,
            None => Standing::Neither,
        }
    }

    fn pledge(&mut self, row: Row) -> Result<(), KeeperError>
        ensures keeps { Pledge stand Pledges self.old (key_of row) result self.new }
        ensures marks { Remarks (key_of row) (Some NoState) (is_ok result) self.old self.new }
        ensures lent { SameLoan self.old self.new }
    {
        // No `admit`: the place of the record is wanted too, and would be looked for twice.
        match self.first(row) {
            None => Err(KeeperError::NoPlace(row.link())),
            Some(i) if self.records[i].mark.is_some() => Err(KeeperError::RowOpen(row.link())),
            Some(i) => {
                self.records[i].mark = Some(DeliveryState::None);
                Ok(())
            }
        }
    }

    fn settle(&mut self, row: Row) -> bool
        ensures keeps { Settle stand Settles self.old (key_of row) result self.new }
        ensures marks { Remarks (key_of row) None result self.old self.new }
        ensures lent { SameLoan self.old self.new }
    {
        self.remark(row, None)
    }

    fn note(&mut self, row: Row, state: DeliveryState) -> bool
        ensures keeps { Note stand self.old (key_of row) state result self.new }
        ensures marks { Remarks (key_of row) (Some state) result self.old self.new }
        ensures lent { SameLoan self.old self.new }
    {
        self.remark(row, Some(state))
    }

    fn close(&mut self, link: LinkNumber)
        ensures keeps { Close stand self.old (number_of link) self.new }
        ensures marks { held self.new ≡ map (closed_on (number_of link)) (held self.old) }
        ensures lent { SameLoan self.old self.new }
    {
        let number = u32::from(link.get());
        for record in self.records.iter_mut() {
            if record.link == number {
                record.mark = None;
            }
        }
    }

    fn reply(&mut self, flow: LinkFlow, handle: OutputHandle) -> Option<LinkFlow>
        ensures keeps { Same stand self.old self.new }
        ensures answer { result ≡ echoed flow handle }
        ensures marks { held self.new ≡ held self.old }
        ensures lent { SameLoan self.old self.new }
    {
        echo(flow, handle)
    }
}
