//! A row: what an application hands over for delivery, how one is made, and when two are one.
ghost use Rattle.std.specs.Prelude.{◌≤◌};

use definitions::link_number::LinkNumber;
use names::octets::DeliveryTag;

/// A link number and a delivery tag of at most 32 bytes. Nothing else is a row, and nothing else can be
/// made one.
#[derive(Clone, Copy, Debug)]
pub struct Row {
    link: LinkNumber,
    tag: DeliveryTag,
    ghost whole: { tag.len ≤ 32 },
}

impl Row {
    ghost use Rattle.std.specs.Prelude.{◌≡◌, ◌<◌, MatchOption};

    /// The row of that link and tag, or none where the tag has more than 32 bytes.
    pub fn new(link: LinkNumber, tag: DeliveryTag) -> Option<Row>
        ensures { MatchOption result (32 < tag.len) (λ row. (row.link ≡ link) × (row.tag ≡ tag)) }
    {
        // No `then`: its closure would need a clause of its own to know that the tag fits.
        if !tag.fits() {
            return None;
        }
        Some(Row { link, tag })
    }

    /// The number of the row's link.
    pub fn link(&self) -> LinkNumber
        ensures { result ≡ self.now.link }
    {
        self.link
    }

    /// The row's delivery tag.
    pub fn tag(&self) -> DeliveryTag
        ensures { result ≡ self.now.tag }
    {
        self.tag
    }
}

// No derive: its equation would speak of the lengths of tags, where contracts speak of keys, which have only the bytes.
impl PartialEq for Row {
    ghost use Rattle.rows.specs.Keys.{key_of, same_key};
    ghost use Rattle.std.specs.Cmp.Rules.{comparing};
    ghost use Rattle.std.proofs.Common.{rules, arith};
    ghost use Rattle.std.specs.Cmp as Keys;

    ghost eq = { λ a b. same_key (key_of a) (key_of b) };

    ghost laws = { Keys.partial_equiv_from_equiv (first_of (Prim.search (comparing, rules), Prim.grind (arith, Self.row.coded.inj))) };

    fn eq(&self, other: &Row) -> bool {
        self.link == other.link && self.tag.as_slice() == other.tag.as_slice()
    }
}

impl Eq for Row {
    ghost use Rattle.std.specs.Cmp.Rules.{comparing};
    ghost use Rattle.std.proofs.Common.{rules, arith};

    ghost laws = { first_of (Prim.search (comparing, rules), Prim.grind (arith, Self.row.coded.inj)) };
}
