//! A table of distinct names.

ghost use Rattle.std.specs.Prelude.{◌≡◌, ◌≢◌, ◌↔◌, ◌∷◌, ◌++◌, [], All, IfOk, IfSome, IfNone, OnErr, OnOk, AllPairs, Contains, IsTrue, length, take, slice_get, Some, None};
ghost use Rattle.std.specs.Option.{option_map};
ghost use Rattle.lf_names.specs.Names.{position_of};
ghost use Rattle.lf_names.specs.Adds.{AddsName};

use crate::stored_name::StoredName;
use indexmap::IndexSet;
use std::alloc::{AllocError, Allocator, Global};
use std::hash::{BuildHasherDefault, FoldHasher};
use std::marker::Model;

/// The result of adding a name to a table: its position, and whether it is new.
#[derive(Clone, Copy, Debug, PartialEq, Eq)]
pub enum Added {
    /// The name was new, and is now the last one.
    New(usize),
    /// The table had the name already.
    Present(usize),
}

/// Distinct names, in first-seen order. A name's place in that order is its position. It does not
/// change while the table grows.
///
/// Names of up to 16 bytes lie in the table itself. A longer name takes memory of its own.
///
/// The time of a lookup does not depend on the number of names, except for names chosen against the
/// fixed hash.
pub struct NameTable<A: Allocator + Copy = Global> {
    names: IndexSet<StoredName<A>, BuildHasherDefault<FoldHasher>, A>,
}

/// Written by hand: with a derived `drop`, the proof of every function that drops a table would
/// unfold it.
impl<A: Allocator + Copy> Drop for NameTable<A> {
    fn drop(self) {
        let NameTable { names: _ } = self;
    }
}

impl<A: Allocator + Copy> Model for NameTable<A> {
    ghost use Rattle.std.specs.Prelude.{List, ℕ, map};
    ghost use Rattle.lf_names.specs.Stored.{bytes_of};

    ghost Value = { List (List ℕ) };

    ghost view = { λ t. map bytes_of t.names.keys };
}

impl<A: Allocator + Copy> NameTable<A> {
    /// Returns an empty table. Allocates nothing.
    pub fn new(alloc: A) -> Self
        ensures { result ≡ [] }
    {
        NameTable {
            names: IndexSet::new(alloc),
        }
    }

    /// Returns an empty table with room for this many names. It does not grow while they are added.
    /// `Err` if an allocation fails.
    pub fn with_capacity(alloc: A, names: usize) -> Result<Self, AllocError>
        ensures { IfOk result (λ table. table ≡ []) }
    {
        Ok(NameTable {
            names: IndexSet::with_capacity(alloc, names)?,
        })
    }

    /// Appends the name if it is new, and returns its position. `Err` if an allocation fails; only
    /// a new name allocates. The table is then unchanged.
    pub fn add(&mut self, name: &[u8]) -> Result<Added, AllocError>
        ensures ok { IfOk result (λ added. AddsName self.old name.now added self.new) }
        ensures err { OnErr result (self.new ≡ self.old) }
        ensures only_new { OnErr result (position_of self.old name.now ≡ None) }
    {
        match self.names.get_index_of(name) {
            Some(position) => Ok(Added::Present(position)),
            None => {
                let position = self.names.len();
                let copy = StoredName::copied(*self.names.allocator(), name)?;
                self.names.insert(copy)?;
                Ok(Added::New(position))
            }
        }
    }

    /// Appends a name that the table does not have. Faster than `add`, which looks for the name
    /// first. `Err` if an allocation fails; the table is then unchanged.
    pub fn add_new(&mut self, name: &[u8]) -> Result<(), AllocError>
        requires { All (λ n. n ≢ name.now) self.old }
        ensures ok { OnOk result (self.new ≡ self.old ++ name.now ∷ []) }
        ensures err { OnErr result (self.new ≡ self.old) }
    {
        let new = StoredName::copied(*self.names.allocator(), name)?;
        self.names.insert(new)?;
        Ok(())
    }

    /// Returns the name's position, or `None` if the table does not have it.
    pub fn find(&self, name: &[u8]) -> Option<usize>
        ensures position { result ≡ position_of self.now name.now }
        ensures found { IfSome result (λ at. slice_get self.now at ≡ Some name.now) }
        ensures absent { IfNone result (¬ Contains self.now name.now) }
    {
        self.names.get_index_of(name)
    }

    /// Returns the name at this position, or `None` if there is no such position.
    pub fn name_at(&self, position: usize) -> Option<&[u8]>
        ensures name { option_map (λ name. name.now) result ≡ slice_get self.now position }
        ensures found_there { IfSome result (λ name. position_of self.now name.now ≡ Some position) }
    {
        Some(self.names.as_slice().get(position)?.as_slice())
    }

    /// Returns the number of names, which are distinct.
    pub fn len(&self) -> usize
        ensures len { result ≡ length self.now }
        ensures distinct { AllPairs (λ name later. name ≢ later) self.now }
    {
        self.names.len()
    }

    /// True if there is no name.
    pub fn is_empty(&self) -> bool
        ensures { IsTrue result ↔ (self.now ≡ []) }
    {
        self.names.is_empty()
    }

    /// Keeps the first `len` names and drops the others. Allocates nothing.
    pub fn truncate(&mut self, len: usize)
        ensures { self.new ≡ take len self.old }
    {
        self.names.truncate(len);
    }
}
