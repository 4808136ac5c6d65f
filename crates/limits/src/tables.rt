//! Examples at the limits.
use crate::made::{link, row};
use definitions::numbers::DeliveryState;
use rows::answers::{KeeperError, Standing};
use rows::keeper::Keeper;
use std::alloc::Global;
use std::test::Fail;
use table_keeper::table::TableKeeper;

// How the row stood, and its link's number, where a pledge was refused.
fn refusal(answer: Result<(), KeeperError>) -> Option<(Standing, u8)> {
    let Err(error) = answer else {
        return None;
    };
    match error {
        KeeperError::RowOpen(link) => Some((Standing::Pending, link.get())),
        KeeperError::NoPlace(link) => Some((Standing::Neither, link.get())),
    }
}

fn many(count: u16, heap: Global) -> Result<TableKeeper, Fail> {
    let mut table = TableKeeper::new(heap)?;
    for n in 0..count {
        table.pledge(row(63, &n.to_be_bytes())?)?;
    }
    Ok(table)
}

/// 255 rows, 256 and 257.
#[test]
fn has_256_places(rt: HostRuntime) -> Result<(), Fail> {
    let mut table = many(255, rt.alloc())?;
    let last = row(63, &255u16.to_be_bytes())?;
    let beyond = row(63, &256u16.to_be_bytes())?;
    let told = [refusal(table.pledge(last)), refusal(table.pledge(beyond))];
    assert_eq!(rt; told, [None, Some((Standing::Neither, 63))]);
    assert!(rt; table.settle(last));
    let told = [refusal(table.pledge(beyond)), refusal(table.pledge(last))];
    assert_eq!(rt; told, [None, Some((Standing::Neither, 63))]);
    assert_eq!(rt; table.pending_count(), 256);
    Ok(())
}

/// Tags of no byte and of 32, a row that comes twice, a state, and two links of which one closes.
#[test]
fn tells_rows_apart(rt: HostRuntime) -> Result<(), Fail> {
    let mut table = TableKeeper::new(rt.alloc())?;
    let short = row(0, &[])?;
    let long = row(0, &[1; 32])?;
    let other = row(1, &[1; 32])?;
    let told = [
        refusal(table.pledge(short)),
        refusal(table.pledge(long)),
        refusal(table.pledge(other)),
        refusal(table.pledge(long)),
    ];
    assert_eq!(rt; told, [None, None, None, Some((Standing::Pending, 0))]);
    assert!(rt; table.note(long, DeliveryState::Accepted));
    assert_eq!(rt; table.state(long), Some(DeliveryState::Accepted));
    table.close(link(0)?);
    let left = [table.state(short), table.state(long), table.state(other)];
    assert_eq!(rt; left, [None, None, Some(DeliveryState::None)]);
    assert!(rt; !table.settle(long));
    Ok(())
}
