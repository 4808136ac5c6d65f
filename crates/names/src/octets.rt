//! Short byte strings: the type, what makes and reads one, and when two are equal.

/// A byte string of at most `N` bytes, held in place.
///
/// Of a longer one only the length is kept. So a call can be handed a name or a tag that breaks its
/// length, refuse it, and tell how long it was. No contract speaks of the bytes past `len`.
// A `Vec` would need an allocator, and frames that carry names and tags are copied.
#[derive(Clone, Copy, Debug)]
pub struct Octets<const N: usize> {
    bytes: [u8; N],
    len: usize,
}

/// The name of a link: 1 to 64 bytes.
pub type Name = Octets<64>;

/// The tag of a delivery: 0 to 32 bytes.
pub type DeliveryTag = Octets<32>;

impl<const N: usize> Octets<N> {
    ghost use Rattle.std.specs.Prelude.{◌≡◌, length, nat_le};
    ghost use Rattle.names.specs.Octets.{bytes_in, kept};

    /// The bytes of `text`, or only their number where there are more than `N`.
    pub fn new(text: &[u8]) -> Octets<N>
        ensures len { result.len ≡ length text.now }
        ensures bytes { bytes_in result ≡ kept N text.now }
    {
        let mut bytes = [0u8; N];
        let len = text.len();
        if len <= N {
            bytes[..len].copy_from_slice(text);
        }
        Octets { bytes, len }
    }

    /// How many bytes were handed in, which may be more than `N`.
    pub fn len(&self) -> usize
        ensures { result ≡ self.now.len }
    {
        self.len
    }

    /// Whether all the bytes that were handed in are held.
    pub fn fits(&self) -> bool
        ensures { result ≡ nat_le self.now.len N }
    {
        N >= self.len
    }

    /// The bytes that are held: none where there were more than `N`.
    pub fn as_slice(&self) -> &[u8]
        ensures { result.now ≡ bytes_in self.now }
    {
        // None of its own bytes, and not `&[]`: a comparison would have to choose between two places for each byte string.
        self.bytes.get(..self.len).unwrap_or(&self.bytes[..0])
    }
}

// Byte strings are equal when they read the same. A derive would compare the unused bytes too.
impl<const N: usize> PartialEq for Octets<N> {
    ghost use Rattle.std.specs.Prelude.{◌≡◌};
    ghost use Rattle.std.specs.Cmp.Rules.{comparing};
    ghost use Rattle.std.proofs.Common.{rules};
    ghost use Rattle.std.specs.Cmp as Keys;
    ghost use Rattle.names.specs.Octets.{same_octets};

    ghost eq = { λ a b. same_octets a b };

    ghost laws = { Keys.partial_equiv_from_equiv (Prim.search (comparing, rules)) };

    fn eq(&self, other: &Octets<N>) -> bool {
        self.len == other.len && self.as_slice() == other.as_slice()
    }
}

impl<const N: usize> Eq for Octets<N> {
    ghost use Rattle.std.specs.Cmp.Rules.{comparing};
    ghost use Rattle.std.proofs.Common.{rules};

    ghost laws = { Prim.search (comparing, rules) };
}
