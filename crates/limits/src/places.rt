//! Places that come and go.
use crate::made::{link, row};
use fickle_keeper::fickle::FickleKeeper;
use rows::answers::Standing;
use rows::keeper::Keeper;
use std::test::Fail;

#[test]
fn a_close_takes_the_places_away(rt: HostRuntime) -> Result<(), Fail> {
    let row = row(0, b"r")?;
    let mut keeper = FickleKeeper::new();
    assert_eq!(rt; keeper.ask(row), Standing::Place);
    keeper.close(link(0)?);
    assert_eq!(rt; keeper.ask(row), Standing::Neither);
    Ok(())
}
