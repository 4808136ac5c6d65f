//! The layers that refuse.
ghost use Rattle.std.specs.Prelude.{◌≡◌};
ghost use Rattle.refusals.specs.Layers.{layer_number};

/// The layer that refuses a call, from the lowest on, with its number.
#[derive(Clone, Copy, PartialEq, Eq, Debug)]
pub enum Layer {
    Keeper = 1,
    Session = 2,
    Engine = 3,
}

impl Layer {
    /// The layer's number.
    // A cast, as the states of sessions and deliveries have one: a trait for all three would only name it.
    pub fn number(self) -> u8
        ensures { result ≡ layer_number self }
    {
        self as u8
    }
}
