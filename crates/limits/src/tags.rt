//! Tags and names at their limits.
use names::octets::{DeliveryTag, Name};

#[test]
fn tags_hold_up_to_32_bytes(rt: HostRuntime) {
    let bytes = [7u8; 33];
    let empty = DeliveryTag::new(&bytes[0..0]);
    let whole = DeliveryTag::new(&bytes[0..32]);
    let long = DeliveryTag::new(&bytes);
    assert!(rt; empty.fits() && empty.as_slice().is_empty());
    assert!(rt; whole.fits() && whole.as_slice().len() == 32);
    assert!(rt; !long.fits() && long.len() == 33 && long.as_slice().is_empty());
    assert!(rt; long != empty);
    assert!(rt; Name::new(&bytes).fits() && !Name::new(&[7u8; 65]).fits());
}

#[test]
fn equal_tags_are_equal_whatever_stood_behind_them(rt: HostRuntime) {
    let one = [1u8, 2, 3, 4];
    let other = [1u8, 2, 9, 9];
    assert!(rt; DeliveryTag::new(&one[0..2]) == DeliveryTag::new(&other[0..2]));
    assert!(rt; DeliveryTag::new(&one[0..3]) != DeliveryTag::new(&other[0..3]));
    assert!(rt; DeliveryTag::new(&one[0..2]) != DeliveryTag::new(&one[0..3]));
}
