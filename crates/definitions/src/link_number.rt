//! The number under which an application knows a link.
ghost use Rattle.std.specs.Prelude.{◌≤◌};

/// A number from 0 to 63. A larger one cannot be made.
#[derive(Clone, Copy, PartialEq, Eq, Debug)]
pub struct LinkNumber {
    number: u8,
    ghost few: { number ≤ 63 },
}

impl LinkNumber {
    ghost use Rattle.std.specs.Prelude.{◌≡◌, ◌<◌, MatchOption};
    ghost use Rattle.definitions.specs.LinkNumbers.{number_of};

    /// The link number `n`, or none where it is above 63.
    // `new` and `get`, as the standard library has them for its numbers that are not zero. No `then`: its closure would
    // need a clause of its own to know that the number fits.
    pub fn new(n: u32) -> Option<LinkNumber>
        ensures { MatchOption result (63 < n) (λ link. number_of link ≡ n) }
    {
        if n > 63 {
            return None;
        }
        Some(LinkNumber { number: n as u8 })
    }

    /// The number itself.
    pub fn get(self) -> u8
        ensures { result ≡ number_of self }
    {
        self.number
    }
}
