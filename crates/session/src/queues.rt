//! Putting frames and link items on the queues of a session.
ghost use Rattle.session.specs.Queues.{PutOr};

use queue::Queue;
use refusals::errors::SessionInnerError;

/// Adds `x` at the end of the queue, or refuses it with `full` where no slot is free.
pub(crate) fn put<T: Copy>(
    queue: &mut Queue<'_, T>,
    x: T,
    full: SessionInnerError,
) -> Result<(), SessionInnerError>
    ensures { PutOr full queue.old x result queue.new }
{
    queue.put(x).map_err(|_| full)
}
