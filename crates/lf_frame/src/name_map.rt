//! Maps from names.

ghost use Rattle.std.specs.Prelude.{◌≡◌, ℕ, List, None, OnOk};
ghost use Rattle.lf_frame.specs.NameMaps.{value_of_name, HasAllValues, SetsValue};

use lf_names::{Added, NameTable};
use std::alloc::{AllocError, Global};

/// A value for each of some names. The time of a lookup does not depend on the number of names,
/// except for names chosen against the fixed hash.
#[derive(Drop)]
pub struct NameMap<V: Copy> {
    names: NameTable,
    values: Vec<V>,
}

impl<V: Copy> NameMap<V> {
    /// Returns an empty map.
    pub(crate) fn new(alloc: Global) -> Self
        ensures whole { HasAllValues result }
        ensures nothing { (name : List ℕ) → value_of_name result name ≡ None }
    {
        NameMap {
            names: NameTable::new(alloc),
            values: Vec::new(alloc),
        }
    }

    /// Returns the name's value, or `None` if it has no value.
    pub(crate) fn get(&self, name: &[u8]) -> Option<V>
        ensures { result ≡ value_of_name self.now name.now }
    {
        match self.names.find(name) {
            Some(at) => self.values.get(at).copied(),
            None => None,
        }
    }

    /// Sets the name's value. After an `Err` the map must be dropped.
    pub(crate) fn put(&mut self, name: &[u8], value: V) -> Result<(), AllocError>
        requires { HasAllValues self.old }
        ensures { OnOk result (SetsValue self.old self.new name.now value) }
    {
        match self.names.add(name)? {
            Added::New(_) => self.values.push(value)?,
            Added::Present(at) => self.values[at] = value,
        }
        Ok(())
    }
}
