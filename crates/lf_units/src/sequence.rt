//! Lists that contracts see without their capacity.

ghost use Rattle.std.specs.Prelude.{◌≡◌, [], ◌∷◌, ◌++◌, length, bytes_eq, IsTrue, ◌↔◌, IfOk, OnErr, OnOk};

use std::alloc::{AllocError, Global};
use std::marker::Model;

/// A list of values that a public type holds. A contract sees the list without a capacity: two are
/// equal if their elements are.
#[derive(Drop)]
pub struct Sequence<T> {
    values: Vec<T>,
}

impl<T> Model for Sequence<T> {
    ghost use Rattle.std.specs.Prelude.{List};

    ghost Value = { List T };

    ghost view = { λ s. s.values.items };
}

impl<T> Sequence<T> {
    /// Returns the empty list.
    pub fn new(alloc: Global) -> Self
        ensures { result ≡ [] }
    {
        Sequence {
            values: Vec::new(alloc),
        }
    }

    /// Returns the list of a vector's elements.
    pub fn from_vec(values: Vec<T>) -> Self
        ensures { result ≡ values.items }
    {
        Sequence { values }
    }

    /// Returns the elements as a vector.
    pub fn into_vec(self) -> Vec<T>
        ensures { result.items ≡ self }
    {
        let Self { values } = self;
        values
    }

    /// Returns the elements, borrowed.
    pub fn as_slice(&self) -> &[T]
        ensures { result.now ≡ self.now }
    {
        self.values.as_slice()
    }

    /// Returns the number of elements.
    pub fn len(&self) -> usize
        ensures { result ≡ length self.now }
    {
        self.values.len()
    }

    /// Returns whether the list has no element.
    pub fn is_empty(&self) -> bool
        ensures { IsTrue result ↔ (self.now ≡ []) }
    {
        self.values.is_empty()
    }
}

impl<T: Drop> Sequence<T> {
    /// Appends a value. If an allocation fails, the value is dropped and the list is unchanged.
    pub fn push(&mut self, value: T) -> Result<(), AllocError>
        ensures ok { OnOk result (self.new ≡ self.old ++ value ∷ []) }
        ensures err { OnErr result (self.new ≡ self.old) }
    {
        self.values.push(value)?;
        Ok(())
    }
}

/// The bytes of a name or of another word of a text. Upper and lower case differ. A contract sees
/// the list of the bytes.
#[derive(Drop)]
pub struct Name {
    bytes: Vec<u8>,
}

impl Model for Name {
    ghost use Rattle.std.specs.Prelude.{List, ℕ};

    ghost Value = { List ℕ };

    ghost view = { λ s. s.bytes.items };
}

impl Name {
    /// Returns a copy of the bytes. `Err` if an allocation fails.
    pub fn from_slice(alloc: Global, bytes: &[u8]) -> Result<Self, AllocError>
        ensures { IfOk result (λ name. name ≡ bytes.now) }
    {
        Ok(Name {
            bytes: Vec::from_slice(alloc, bytes)?,
        })
    }

    /// Returns the name with these bytes, without a copy.
    pub fn from_vec(bytes: Vec<u8>) -> Self
        ensures { result ≡ bytes.items }
    {
        Name { bytes }
    }

    /// Returns the bytes, borrowed.
    pub fn as_bytes(&self) -> &[u8]
        ensures { result.now ≡ self.now }
    {
        self.bytes.as_slice()
    }

    /// Returns whether these are the name's bytes.
    pub fn is(&self, bytes: &[u8]) -> bool
        ensures { result ≡ bytes_eq self.now bytes.now }
    {
        self.as_bytes() == bytes
    }
}
