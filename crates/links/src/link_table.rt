//! The table of links: looking links up, and changing how they stand.
ghost use Rattle.std.specs.Prelude.{◌≡◌, ◌<◌, IfSome};
ghost use Rattle.std.specs.Option.{option_map};
ghost use Rattle.definitions.specs.LinkNumbers.{number_of};

use crate::link::LinkState;
use definitions::link_number::LinkNumber;
use definitions::numbers::{InputHandle, OutputHandle};

/// How many link numbers there are.
pub const NUMBERS: usize = 64;

/// How the link of each link number stands.
// An array, and no map: a session takes no memory after its opening.
#[derive(Clone, Copy)]
pub struct LinkTable {
    links: [LinkState; NUMBERS],
}

impl LinkTable {
    ghost use Rattle.std.specs.Prelude.{◌≡◌, map, slice_set, position};
    ghost use Rattle.std.specs.List.{list_any};
    ghost use Rattle.std.specs.Option.{option_map};
    ghost use Rattle.definitions.specs.LinkNumbers.{number_of};
    ghost use Rattle.links.specs.declared.link.LinkState.TheVariants.{Idle};
    ghost use Rattle.links.specs.Links.{is_idle, link_of, no_links, awaits_under, attached_under, blanked};
    ghost use Rattle.links.specs.LinkTables.{links_in};

    /// A table without links.
    pub fn new() -> LinkTable
        ensures { links_in result ≡ no_links }
    {
        LinkTable {
            links: [LinkState::Idle; NUMBERS],
        }
    }

    /// How the link of the number stands.
    pub fn get(&self, link: LinkNumber) -> LinkState
        ensures { result ≡ link_of (links_in self.now) (number_of link) }
    {
        self.links[link.get() as usize]
    }

    /// Whether there is no link of the number.
    pub fn is_idle(&self, link: LinkNumber) -> bool
        ensures { result ≡ is_idle (link_of (links_in self.now) (number_of link)) }
    {
        matches!(self.get(link), LinkState::Idle)
    }

    /// Changes how the link of the number stands.
    pub fn set(&mut self, link: LinkNumber, state: LinkState)
        ensures { links_in self.new ≡ slice_set (links_in self.old) (number_of link) state }
    {
        self.links[link.get() as usize] = state;
    }

    /// The first link that waits for its attach with that output handle.
    pub fn awaiting(&self, handle: OutputHandle) -> Option<LinkNumber>
        ensures { option_map number_of result ≡ position (awaits_under handle.0) (links_in self.now) }
    {
        numbered(self.links.iter().position(|link| link.awaits(handle)))
    }

    /// The first link that is attached under the input handle.
    pub fn attached(&self, handle: InputHandle) -> Option<LinkNumber>
        ensures { option_map number_of result ≡ position (attached_under handle.0) (links_in self.now) }
    {
        numbered(
            self.links
                .iter()
                .position(|link| link.is_attached_under(handle)),
        )
    }

    /// Whether a link is attached under the input handle.
    pub fn has_attached(&self, handle: InputHandle) -> bool
        ensures { result ≡ list_any (attached_under handle.0) (links_in self.now) }
    {
        self.links.iter().any(|link| link.is_attached_under(handle))
    }

    /// Takes away all links that wait for their attach with that output handle.
    pub fn forget(&mut self, handle: OutputHandle)
        ensures { links_in self.new ≡ map (blanked (awaits_under handle.0) Idle) (links_in self.old) }
    {
        for link in self.links.iter_mut() {
            if link.awaits(handle) {
                *link = LinkState::Idle;
            }
        }
    }
}

/// The link number at a place of the table.
fn numbered(place: Option<usize>) -> Option<LinkNumber>
    requires { IfSome place (λ i. i < 64) }
    ensures { option_map number_of result ≡ place }
{
    place.and_then(|i| LinkNumber::new(i as u32))
}
