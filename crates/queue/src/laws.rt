//! What the contracts of a queue come to over whole runs of calls.
ghost use Rattle.queue.specs.Runs.{FirstInFirstOut};

/// Bears the law: over every run of puts and takes from an empty queue on, what was taken and then what still waits is
/// what was put and not refused, in the order in which it was put. A call does nothing.
pub fn first_in_first_out<T: Copy>()
    ensures { FirstInFirstOut T }
{}
