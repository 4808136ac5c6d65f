//! The keeper: opened over records that are lent to it, looked into, and given up again.

use crate::record::Record;
use definitions::numbers::DeliveryState;
use rows::row::Row;

pub mod keeps;

/// Keeps rows by marks on records that were lent to it.
#[derive(Drop)]
pub struct MarkingKeeper<'a> {
    records: &'a mut [Record],
}

impl<'a> MarkingKeeper<'a> {
    ghost use Rattle.std.specs.Prelude.{◌≡◌, false, find, map, position};
    ghost use Rattle.std.specs.Option.{option_map};
    ghost use Rattle.rows.specs.Keys.{Key, key_of};
    ghost use Rattle.rows.specs.Meaning.{is_pending, state_of};
    ghost use Rattle.marking_keeper.specs.Records.{naming, unmarked};
    ghost use Rattle.marking_keeper.specs.Marking.{held, stand, Remarks, SameLoan};

    /// A keeper over the records, with nothing pending: all marks are cleared.
    pub fn new(records: &'a mut [Record]) -> MarkingKeeper<'a>
        ensures cleared { held result ≡ map unmarked records.old }
        ensures none { (k : Key) → is_pending (stand result k) ≡ false }
        ensures lent { result.records.ghost_name ≡ records.entry.ghost_name }
    {
        for record in records.iter_mut() {
            record.mark = None;
        }
        MarkingKeeper { records }
    }

    /// The records as they stand.
    pub fn records(&self) -> &[Record]
        ensures { result.now ≡ held self.now }
    {
        &self.records[..]
    }

    /// Gives the keeper up, and the records back.
    pub fn into_records(self) -> &'a mut [Record]
        ensures same { result.now ≡ self.entry.records.now }
        ensures lent { result.ghost_name ≡ self.entry.records.ghost_name }
    {
        let MarkingKeeper { records } = self;
        records
    }

    /// The delivery state of the row, if it is pending.
    pub fn state(&self, row: Row) -> Option<DeliveryState>
        ensures { result ≡ state_of (stand self.now (key_of row)) }
    {
        self.named(row).and_then(|record| record.mark)
    }

    /// The first record that names the row.
    fn named(&self, row: Row) -> Option<&Record>
        ensures { option_map (λ x. x.now) result ≡ find (naming (key_of row)) (held self.now) }
    {
        self.records.iter().find(|record| record.names(row))
    }

    /// The place of the first record that names the row.
    fn first(&self, row: Row) -> Option<usize>
        ensures { result ≡ position (naming (key_of row)) (held self.now) }
    {
        self.records.iter().position(|record| record.names(row))
    }

    /// Replaces the mark of a row that is pending, and tells whether it was.
    fn remark(&mut self, row: Row, mark: Option<DeliveryState>) -> bool
        ensures was { result ≡ is_pending (stand self.old (key_of row)) }
        ensures marks { Remarks (key_of row) mark result self.old self.new }
        ensures lent { SameLoan self.old self.new }
    {
        match self.first(row) {
            Some(i) if self.records[i].mark.is_some() => {
                self.records[i].mark = mark;
                true
            }
            _ => false,
        }
    }
}
