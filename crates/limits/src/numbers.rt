//! Link numbers and delivery states at their limits.
use definitions::link_number::LinkNumber;
use definitions::numbers::DeliveryState;
use std::test::Fail;

#[test]
fn link_numbers_end_at_63(rt: HostRuntime) -> Result<(), Fail> {
    assert!(rt; LinkNumber::new(64).is_none());
    let Some(last) = LinkNumber::new(63) else {
        return Err(Fail::new("63 is a link number"));
    };
    assert_eq!(rt; last.get(), 63);
    Ok(())
}

#[test]
fn terminal_states_begin_at_2(rt: HostRuntime) {
    assert!(rt; !DeliveryState::Received.is_terminal());
    assert!(rt; DeliveryState::Accepted.is_terminal());
    assert_eq!(rt; DeliveryState::Accepted.number(), 2);
    assert_eq!(rt; DeliveryState::Modified.number(), 5);
}
