//! The bytes of a name in a table.

ghost use Rattle.std.specs.Prelude.{◌≡◌, IfOk};
ghost use Rattle.std.specs.Cmp as Cmp;
ghost use Rattle.std.specs.Cmp.{on_equiv, on_per};
ghost use Rattle.std.specs.Cmp.Lexicographic.{bytes_decides, nat_list_eq_equiv};
ghost use Rattle.std.specs.Cmp.Rules.{hashing};
ghost use Rattle.std.specs.Hash as fed;
ghost use Rattle.std.specs.Str.{bytes_eq};
ghost use Rattle.std.proofs.Common.{ap, rules};
ghost use Rattle.lf_names.specs.Stored.{bytes_of};

use arrayvec::ArrayVec;
use indexmap::Equivalent;
use std::alloc::{AllocError, Allocator};
use std::hash::{Hash, Hasher};

/// The bytes of a name. Names of up to 16 bytes, as most cell names are, lie in the table itself.
#[derive(Drop)]
pub(crate) enum StoredName<A: Allocator> {
    Short(ArrayVec<u8, 16>),
    Long(Vec<u8, A>),
}

impl<A: Allocator> StoredName<A> {
    /// Returns a copy of the name. `Err` if an allocation fails; only a long name allocates.
    pub(crate) fn copied(alloc: A, name: &[u8]) -> Result<Self, AllocError>
        ensures { IfOk result (λ copy. bytes_of copy ≡ name.now) }
    {
        match ArrayVec::try_from(name) {
            Ok(short) => Ok(StoredName::Short(short)),
            Err(_) => Ok(StoredName::Long(Vec::from_slice(alloc, name)?)),
        }
    }

    /// Returns the bytes, borrowed.
    pub(crate) fn as_slice(&self) -> &[u8]
        ensures { result.now ≡ bytes_of self.now }
    {
        match self {
            StoredName::Short(name) => name.as_slice(),
            StoredName::Long(name) => name.as_slice(),
        }
    }
}

impl<A: Allocator> PartialEq for StoredName<A> {
    ghost eq = { λ x y. bytes_eq (bytes_of x) (bytes_of y) };

    ghost laws = { on_per bytes_of (Cmp.partial_equiv_from_equiv nat_list_eq_equiv) };

    fn eq(&self, other: &Self) -> bool {
        self.as_slice() == other.as_slice()
    }
}

impl<A: Allocator> Eq for StoredName<A> {
    ghost laws = { on_equiv bytes_of nat_list_eq_equiv };
}

impl<A: Allocator> Hash for StoredName<A> {
    ghost hash_input = { λ name. fed.slice fed.u8 (bytes_of name) };

    ghost respects_eq = { Prim.search (hashing, rules) };

    fn hash<H: Hasher>(&self, state: &mut H) {
        self.as_slice().hash(state);
    }
}

impl<A: Allocator> Equivalent<StoredName<A>> for &[u8] {
    ghost equivalent = { λ q k. bytes_eq q.now (bytes_of k) };

    ghost respects_hash = { λ q k h. ap (fed.slice fed.u8) ((bytes_decides q.now (bytes_of k)).0 h) };

    ghost respects_eq = { λ q x y. nat_list_eq_equiv.congr q.now (bytes_of x) (bytes_of y) };

    fn equivalent(&self, key: &StoredName<A>) -> bool {
        *self == key.as_slice()
    }
}
