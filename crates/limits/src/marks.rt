//! Records as an application may have them: doubled, with old marks, with links and tags that no row has.
ghost use Rattle.std.specs.Prelude.{◌≡◌, map, if◌then◌else◌, Some};
ghost use Rattle.definitions.specs.declared.numbers.DeliveryState.TheVariants.{None as NoState};
ghost use Rattle.rows.specs.Keys.{key_of};
ghost use Rattle.marking_keeper.specs.Records.{remarked, unmarked};

use crate::made::row;
use definitions::numbers::DeliveryState;
use marking_keeper::marking::MarkingKeeper;
use marking_keeper::record::Record;
use names::octets::DeliveryTag;
use rows::answers::Standing;
use rows::keeper::Keeper;
use rows::row::Row;
use std::test::Fail;

// A record that some earlier run left marked.
fn record(link: u32, tag: &[u8]) -> Record {
    Record {
        link,
        tag: DeliveryTag::new(tag),
        mark: Some(DeliveryState::Rejected),
    }
}

// What the owner of the records knows of them when the keeper is gone.
fn pledged(records: &mut [Record], row: Row) -> bool
    ensures { records.new ≡ (if result then remarked (key_of row) (Some NoState) (map unmarked records.old) else map unmarked records.old) }
{
    let mut keeper = MarkingKeeper::new(records);
    match keeper.pledge(row) {
        Ok(()) => true,
        Err(_) => false,
    }
}

#[test]
fn the_first_of_two_records_bears_the_mark(rt: HostRuntime) -> Result<(), Fail> {
    let one = [7u8, 8, 1];
    let other = [7u8, 8, 2];
    let mut records = [record(1, &one[0..2]), record(1, &other[0..2])];
    assert!(rt; pledged(&mut records, row(1, &other[0..2])?));
    assert_eq!(rt;
        [records[0].mark, records[1].mark],
        [Some(DeliveryState::None), None]
    );
    Ok(())
}

#[test]
fn some_records_name_no_row(rt: HostRuntime) -> Result<(), Fail> {
    let mut records = [record(64, b"a"), record(1, &[0; 33])];
    let keeper = MarkingKeeper::new(&mut records);
    assert_eq!(rt; keeper.ask(row(1, b"")?), Standing::Neither);
    assert_eq!(rt;
        MarkingKeeper::new(&mut []).ask(row(1, b"")?),
        Standing::Neither
    );
    Ok(())
}
