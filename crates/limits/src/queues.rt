//! Queues at their limits: no slot, one slot, every slot in use, and the turn from the last slot to the first.
use queue::{Full, Queue};

#[test]
fn no_slot_takes_nothing(rt: HostRuntime) {
    let mut slots: [u32; 0] = [];
    let mut queue = Queue::new(&mut slots);
    assert_eq!(rt; queue.put(7), Err(Full));
    assert_eq!(rt; queue.take(), None);
}

#[test]
fn one_slot_is_used_again(rt: HostRuntime) {
    let mut slots = [0u32; 1];
    let mut queue = Queue::new(&mut slots);
    assert_eq!(rt; [queue.put(1), queue.put(2)], [Ok(()), Err(Full)]);
    assert_eq!(rt; [queue.take(), queue.take()], [Some(1), None]);
}

#[test]
fn the_ring_goes_round(rt: HostRuntime) {
    let mut slots = [0u32; 3];
    let mut queue = Queue::new(&mut slots);
    assert_eq!(rt; [queue.put(1), queue.put(2), queue.put(3)], [Ok(()); 3]);
    assert_eq!(rt; [queue.take(), queue.take()], [Some(1), Some(2)]);
    assert_eq!(rt; [queue.put(5), queue.put(6)], [Ok(()); 2]);
    assert_eq!(rt; [queue.len(), queue.free()], [3, 0]);
    assert_eq!(rt;
        [queue.take(), queue.take(), queue.take()],
        [Some(3), Some(5), Some(6)]
    );
}
