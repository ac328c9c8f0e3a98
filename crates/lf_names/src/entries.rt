//! The labels and lengths of labelled names.

ghost use Rattle.std.specs.Prelude.{◌≡◌, ◌<◌, ◌++◌, ◌∷◌, [], IfSome, OnErr, OnOk, get_or, length, slice_get};

use std::alloc::{AllocError, Global};
use std::marker::Model;
use std::mem::size_of;

/// The label of a name, and the number of its bytes.
#[derive(Clone, Copy)]
pub struct Entry {
    pub label: usize,
    pub len: usize,
}

/// An `Entry` with 32 bits for each number.
#[derive(Drop)]
struct ShortEntry {
    label: u32,
    len: u32,
}

impl Model for ShortEntry {
    ghost use Rattle.lf_names.specs.declared.entries.Entry.{Entry};

    ghost Value = { Entry };

    ghost view = { λ e. record { label = e.label; len = e.len } };
}

const _: () = prove!(size_of::<ShortEntry>() == 8 && size_of::<Entry>() == 16);

/// The entries of a list of names, in order. An entry takes 8 bytes. From the first one with a
/// label or length of more than 32 bits on, each takes 16. A contract sees the list of entries.
#[derive(Drop)]
pub(crate) struct Entries {
    /// The entries in front of the first that needs more than 32 bits.
    short: Vec<ShortEntry>,
    /// All further entries.
    far: Vec<Entry>,
}

impl Model for Entries {
    ghost use Rattle.std.specs.Prelude.{◌++◌, List};
    ghost use Rattle.lf_names.specs.declared.entries.Entry.{Entry};

    ghost Value = { List Entry };

    ghost view = { λ e. e.short.items ++ e.far.items };
}

/// Returns the entry with 32 bits for each number, or `None` if one needs more.
fn short_entry(entry: Entry) -> Option<ShortEntry>
    ensures { IfSome result (λ short. short ≡ entry) }
{
    match (u32::try_from(entry.label), u32::try_from(entry.len)) {
        (Ok(label), Ok(len)) => Some(ShortEntry { label, len }),
        _ => None,
    }
}

/// Returns the entry as the next short one. `None` if it needs more than 32 bits, or if there are
/// far entries.
fn next_short(entry: Entry, far: &[Entry]) -> Option<ShortEntry>
    ensures { IfSome result (λ short. (short ≡ entry) × (far.now ≡ [])) }
{
    if far.is_empty() {
        short_entry(entry)
    } else {
        None
    }
}

impl ShortEntry {
    /// Returns the same entry with full-size numbers.
    fn long(&self) -> Entry
        ensures { result ≡ self.now }
    {
        Entry {
            label: self.label as usize,
            len: self.len as usize,
        }
    }
}

impl Entries {
    /// Returns an empty list.
    pub(crate) fn new(alloc: Global) -> Self
        ensures { result ≡ [] }
    {
        Entries {
            short: Vec::new(alloc),
            far: Vec::new(alloc),
        }
    }

    /// Returns the number of entries.
    pub(crate) fn len(&self) -> usize
        ensures { result ≡ length self.now }
    {
        self.short.len() + self.far.len()
    }

    /// Appends the entry. `Err` if an allocation fails; the list is then unchanged.
    pub(crate) fn push(&mut self, entry: Entry) -> Result<(), AllocError>
        ensures ok { OnOk result (self.new ≡ self.old ++ entry ∷ []) }
        ensures err { OnErr result (self.new ≡ self.old) }
    {
        match next_short(entry, self.far.as_slice()) {
            Some(short) => self.short.push(short)?,
            None => self.far.push(entry)?,
        }
        Ok(())
    }

    /// Returns the entry at this position.
    pub(crate) fn at(&self, position: usize) -> Entry
        requires { position < length self.now }
        ensures { result ≡ get_or self.now position result }
    {
        let near = self.short.len();
        if position < near {
            self.short[position].long()
        } else {
            self.far[position - near]
        }
    }

    /// Returns the entry at this position, or `None` if there is no such position.
    pub(crate) fn get(&self, position: usize) -> Option<Entry>
        ensures { result ≡ slice_get self.now position }
    {
        if position < self.len() {
            Some(self.at(position))
        } else {
            None
        }
    }
}
