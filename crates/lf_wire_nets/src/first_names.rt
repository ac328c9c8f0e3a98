//! The positions of the first entries with each name.

ghost use Rattle.std.specs.Prelude.{◌≡◌, ℕ, List, None, OnOk};
ghost use Rattle.lf_wire_nets.specs.FirstNames.{AddsEntry, HasAllPositions, first_position};

use lf_names::{Added, NameTable};
use std::alloc::{AllocError, Global};

/// The position of the first entry with each name, in a list of named entries. The time of a lookup
/// does not depend on the number of names, except for names chosen against the fixed hash.
#[derive(Drop)]
pub(crate) struct FirstNames {
    names: NameTable,
    positions: Vec<usize>,
}

impl FirstNames {
    /// Returns the positions of no entry. Allocates nothing.
    pub(crate) fn new(alloc: Global) -> FirstNames
        ensures whole { HasAllPositions result }
        ensures nothing { (name : List ℕ) → first_position result name ≡ None }
    {
        FirstNames {
            names: NameTable::new(alloc),
            positions: Vec::new(alloc),
        }
    }

    /// Returns the position of the first entry with the name. `None` if no entry has it.
    pub(crate) fn find(&self, name: &[u8]) -> Option<usize>
        ensures { result ≡ first_position self.now name.now }
    {
        match self.names.find(name) {
            Some(at) => self.positions.get(at).copied(),
            None => None,
        }
    }

    /// Adds the entry with this name at this position. A later entry with the same name changes
    /// nothing. `Err` if an allocation fails; the positions must then be dropped.
    pub(crate) fn add(&mut self, name: &[u8], position: usize) -> Result<(), AllocError>
        requires { HasAllPositions self.old }
        ensures { OnOk result (AddsEntry self.old self.new name.now position) }
    {
        match self.names.add(name)? {
            Added::New(_) => self.positions.push(position)?,
            Added::Present(_) => {}
        }
        Ok(())
    }
}
