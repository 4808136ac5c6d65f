//! The table of output handles: giving handles to names, and freeing them.
ghost use Rattle.std.specs.Prelude.{◌≡◌, ◌≢◌, ◌+◌, ◌≤◌, false, length, vec_len, vec_capacity};
ghost use Rattle.std.specs.List.{All, AllPairs};
ghost use Rattle.links.specs.Handles.{used_in, IsVacant, same_name};

use crate::handle::HandleEntry;
use definitions::numbers::OutputHandle;
use names::octets::Name;
use std::alloc::{AllocError, Global};

/// How many output handles can be in use.
pub const HANDLES: usize = 64;

/// How each output handle stands, and the handles that are not in use, the next one to be given last.
// An array and a stack that never grows, and no map: a session takes no memory after its opening.
#[derive(Drop)]
pub struct HandleTable {
    entries: [HandleEntry; HANDLES],
    vacant: Vec<OutputHandle>,
    ghost whole: { length entries ≡ 64 },
    ghost reserved: { 64 ≤ vec_capacity vacant },
    // Each handle is in use or vacant,
    ghost tally: { used_in entries + vec_len vacant ≡ 64 },
    // no vacant one is in use, and none is vacant twice;
    ghost idle: { All (IsVacant entries) vacant.items },
    ghost once: { AllPairs (λ g h. g.0 ≢ h.0) vacant.items },
    // and no name is in use twice.
    ghost distinct: { AllPairs (λ e f. same_name e f ≡ false) entries },
}

impl HandleTable {
    ghost use Rattle.std.specs.Prelude.{◌≡◌, true, false, IfOk, nat_le, position};
    ghost use Rattle.std.specs.List.{list_any};
    ghost use Rattle.std.specs.Option.{option_map};
    ghost use Rattle.links.specs.Handles.{handle_at, in_use, bears_name, used_in};
    ghost use Rattle.links.specs.HandleTables.{entries_of, Fresh, Gave, Freed};

    /// A table of which no handle was given yet, or an error where there is no memory for it.
    pub fn new(heap: Global) -> Result<HandleTable, AllocError>
        ensures { IfOk result Fresh }
    {
        let mut vacant = Vec::with_capacity(heap, HANDLES)?;
        // A loop and no `collect`: what that makes of a range from its end does not prove by itself.
        for h in (0..HANDLES as u32).rev() {
            vacant.push_reserved(OutputHandle(h));
        }
        let unused = HandleEntry {
            name: None,
            awaited: false,
        };
        Ok(HandleTable {
            entries: [unused; HANDLES],
            vacant,
        })
    }

    /// The handle in use by the name.
    pub fn find(&self, name: Name) -> Option<OutputHandle>
        ensures { option_map (λ h. h.0) result ≡ position (bears_name name) (entries_of self.now) }
    {
        self.entries
            .iter()
            .position(|entry| entry.bears(&name))
            .map(|h| OutputHandle(h as u32))
    }

    /// Whether the name is in use.
    pub fn has(&self, name: Name) -> bool
        ensures { result ≡ list_any (bears_name name) (entries_of self.now) }
    {
        self.entries.iter().any(|entry| entry.bears(&name))
    }

    /// Whether 64 handles are in use.
    pub fn is_full(&self) -> bool
        ensures { result ≡ nat_le 64 (used_in (entries_of self.now)) }
    {
        self.vacant.is_empty()
    }

    /// Whether the handle is in use.
    pub fn is_used(&self, handle: OutputHandle) -> bool
        ensures { result ≡ in_use (handle_at (entries_of self.now) handle.0) }
    {
        let entry = self.entries.get(handle.0 as usize);
        entry.is_some_and(|entry| entry.name.is_some())
    }

    /// Gives the next handle to a name that is not in use, where fewer than 64 are.
    pub(crate) fn give(&mut self, name: Name) -> OutputHandle
        requires unnamed { list_any (bears_name name) (entries_of self.old) ≡ false }
        requires room { nat_le 64 (used_in (entries_of self.old)) ≡ false }
        ensures { Gave self.old name result self.new }
    {
        let handle = self.vacant.pop().unwrap();
        self.entries[handle.0 as usize].name = Some(name);
        handle
    }

    /// Frees a handle that is in use.
    pub(crate) fn release(&mut self, handle: OutputHandle)
        requires { in_use (handle_at (entries_of self.old) handle.0) ≡ true }
        ensures { Freed self.old handle self.new }
    {
        self.entries[handle.0 as usize].name = None;
        self.vacant.push_reserved(handle);
    }
}
