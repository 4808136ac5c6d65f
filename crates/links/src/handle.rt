//! How an output handle stands.
ghost use Rattle.std.specs.Prelude.{◌≡◌};
ghost use Rattle.links.specs.Handles.{bears_name};

use names::octets::Name;

/// A place of the handle table.
#[derive(Clone, Copy)]
pub struct HandleEntry {
    /// The name that the handle is in use by, if it is in use.
    pub name: Option<Name>,
    /// A detach of ours freed the handle, and the peer's detach has not come since. The handle may be in use again.
    pub awaited: bool,
}

impl HandleEntry {
    /// Whether the handle is in use by the name.
    pub(crate) fn bears(&self, name: &Name) -> bool
        ensures { result ≡ bears_name name.now self.now }
    {
        // Not `self.name == Some(*name)`, which makes a copy of the name for each entry, vacant ones too.
        matches!(&self.name, Some(own) if own == name)
    }
}
