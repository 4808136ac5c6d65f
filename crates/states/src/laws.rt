//! What the table comes to over whole runs of events.
ghost use Rattle.states.specs.Laws.{MappedByBothBegins, StoppedIsFinal, DiscardingUntilPeerEnd};

/// Bears the laws of the table: over every run of events that happen, a session is mapped exactly when both
/// begins happened and no end did; nothing happens to a stopped session; and only the peer's end leads out of
/// the state in which its frames are discarded. A call does nothing.
pub fn states_stand()
    ensures mapped { MappedByBothBegins }
    ensures stopped { StoppedIsFinal }
    ensures discarding { DiscardingUntilPeerEnd }
{}
