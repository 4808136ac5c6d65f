//! What a queue tells about itself.
ghost use Rattle.std.specs.Prelude.{◌≡◌, ◌+◌, ◌-◌, length};
ghost use Rattle.queue.specs.Contents.{contents, places};

use crate::Queue;

impl<'a, T: Copy> Queue<'a, T> {
    /// How many elements wait.
    pub fn len(&self) -> usize
        ensures { result ≡ length (contents self.now) }
    {
        self.used
    }

    /// How many slots are free: as many elements can be put before one is refused.
    pub fn free(&self) -> usize
        ensures left { result ≡ places self.now - length (contents self.now) }
        ensures whole { length (contents self.now) + result ≡ places self.now }
    {
        self.slots.len() - self.len()
    }
}
