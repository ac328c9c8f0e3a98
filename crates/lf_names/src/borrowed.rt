//! A table of distinct borrowed names.

ghost use Rattle.std.specs.Prelude.{◌≡◌, [], IfOk, OnErr, None};
ghost use Rattle.lf_names.specs.Names.{position_of};
ghost use Rattle.lf_names.specs.Adds.{AddsName};

use crate::table::Added;
use indexmap::IndexSet;
use std::alloc::{AllocError, Global};
use std::hash::{BuildHasherDefault, FoldHasher};
use std::marker::Model;

/// Distinct borrowed names, in first-seen order: a `NameTable` without copies. Lookups are fastest
/// if the names are close together in memory.
#[derive(Drop)]
pub(crate) struct BorrowedNames<'a> {
    names: IndexSet<&'a [u8], BuildHasherDefault<FoldHasher>, Global>,
}

impl<'a> Model for BorrowedNames<'a> {
    ghost use Rattle.std.specs.Prelude.{List, ℕ, map};

    ghost Value = { List (List ℕ) };

    ghost view = { λ t. map (λ k. k.now) t.names.keys };
}

impl<'a> BorrowedNames<'a> {
    /// Returns an empty table with room for this many names. `Err` if an allocation fails.
    pub(crate) fn with_capacity(alloc: Global, names: usize) -> Result<Self, AllocError>
        ensures { IfOk result (λ table. table ≡ []) }
    {
        Ok(BorrowedNames {
            names: IndexSet::with_capacity(alloc, names)?,
        })
    }

    /// Appends the name if it is new, and returns its position. `Err` if an allocation fails; only
    /// a new name allocates. The table is then unchanged.
    pub(crate) fn add(&mut self, name: &'a [u8]) -> Result<Added, AllocError>
        ensures ok { IfOk result (λ added. AddsName self.old name.now added self.new) }
        ensures err { OnErr result (self.new ≡ self.old) }
        ensures only_new { OnErr result (position_of self.old name.now ≡ None) }
    {
        let (position, new) = self.names.insert_full(name)?;
        if new {
            return Ok(Added::New(position));
        }
        Ok(Added::Present(position))
    }

    /// Returns the name's position, or `None` if the table does not have it.
    pub(crate) fn find(&self, name: &[u8]) -> Option<usize>
        ensures { result ≡ position_of self.now name.now }
    {
        self.names.get_index_of(name)
    }
}
