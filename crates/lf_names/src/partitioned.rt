//! Labelled names in parts. Each part is looked up by itself.

ghost use Rattle.std.specs.Prelude.{◌≡◌, ◌↔◌, ◌<◌, ◌++◌, ◌∷◌, ℕ, List, [], IfOk, IfSome, IfNone, IsTrue, OnOk, OnErr, map, take, drop};
ghost use Rattle.std.specs.List.Sorted.{IsPermutation};
ghost use Rattle.std.specs.Option.{option_map, option_to_list};
ghost use Rattle.lf_names.specs.Labels.{Labelled, Differ, AreMatches, label_in, labels_of, matches_of};
ghost use Rattle.lf_names.specs.NameParts.{part_of as name_part, part_count, StoresNames, ArePartsOf};

use crate::borrowed::BorrowedNames;
use crate::entries::{Entries, Entry};
use crate::table::Added;
use std::alloc::{AllocError, Global};
use std::marker::Model;

/// The number of parts. With 256 parts of a million names, the table of one part fits into the
/// processor's cache.
const PARTS: usize = 256;

/// The odd factor of the hash that selects the part.
const FACTOR: u32 = 0x9E37_79B1;

/// Names with labels, in the order in which they were pushed. Their bytes are joined.
#[derive(Drop)]
pub struct LabelledNames {
    bytes: Vec<u8>,
    entries: Entries,
}

/// The labels of a name that is in two lists: the label in the list itself, and the label in the
/// list of requested names.
#[derive(Clone, Copy)]
pub struct Match {
    pub own: usize,
    pub requested: usize,
}

/// A list of labelled names in parts. It copies the names. Equal names are in one part, so names
/// are looked up part by part, in small tables. With many names that is faster than one large
/// table. A contract sees the list of names with their labels, in some order.
#[derive(Drop)]
pub struct PartitionedNames {
    parts: Vec<LabelledNames>,
}

impl Model for PartitionedNames {
    ghost use Rattle.std.specs.Prelude.{List};
    ghost use Rattle.lf_names.specs.Labels.{Labelled};
    ghost use Rattle.lf_names.specs.NameParts.{AreParted, names_of_parts};

    ghost Value = { List Labelled };

    ghost view = { λ p. names_of_parts p.parts.items };

    ghost invariant = { λ p. AreParted p.parts.items };
}

/// Returns the part of a name. Its hash differs from the hash of the tables, so the names of a part
/// do not collide in its table.
fn part_of(name: &[u8]) -> usize
    ensures part { result ≡ name_part name.now }
    ensures within { result < part_count }
{
    let mut hash: u32 = 0;
    for byte in name {
        hash = hash.wrapping_mul(FACTOR).wrapping_add(u32::from(*byte));
    }
    (hash.wrapping_mul(FACTOR) >> 24) as usize
}

/// Returns the first `len` bytes, and the bytes after them.
fn cut(bytes: &[u8], len: usize) -> (&[u8], &[u8])
    ensures prefix { result.0.now ≡ take len bytes.now }
    ensures back { result.1.now ≡ drop len bytes.now }
{
    bytes.split_at(len.min(bytes.len()))
}

impl LabelledNames {
    /// Returns an empty list.
    fn new(alloc: Global) -> Self
        ensures { StoresNames result [] }
    {
        LabelledNames {
            bytes: Vec::new(alloc),
            entries: Entries::new(alloc),
        }
    }

    /// Appends a name with its label. `Err` if an allocation fails; the names are then unchanged.
    fn push(&mut self, label: usize, name: &[u8]) -> Result<(), AllocError>
        ensures ok { (names : List Labelled) → StoresNames self.old names
            → OnOk result (StoresNames self.new (names ++ record { label = label; name = name.now } ∷ [])) }
        ensures err { (names : List Labelled) → StoresNames self.old names → OnErr result (StoresNames self.new names) }
    {
        let len = name.len();
        let before = self.bytes.len();
        self.bytes.extend_from_slice(name)?;
        if self.entries.push(Entry { label, len }).is_err() {
            self.bytes.truncate(before);
            return Err(AllocError);
        }
        Ok(())
    }
}

/// Returns the table of the names, or `None` if a name is in the list twice. `Err` if an allocation
/// fails.
fn table_of(alloc: Global, names: &LabelledNames) -> Result<Option<BorrowedNames<'_>>, AllocError>
    ensures names { (own : List Labelled) → StoresNames names.now own
        → IfOk result (λ answer. IfSome answer (λ table. table ≡ map (λ n. n.name) own)) }
    ensures differ { (own : List Labelled) → StoresNames names.now own
        → IfOk result (λ answer. IfSome answer (λ table. Differ own)) }
    ensures none { (own : List Labelled) → StoresNames names.now own
        → IfOk result (λ answer. IfNone answer (Differ own → ⊥)) }
{
    let mut table = BorrowedNames::with_capacity(alloc, names.entries.len())?;
    let mut remaining = names.bytes.as_slice();
    for position in 0..names.entries.len() {
        let (name, after_it) = cut(remaining, names.entries.at(position).len);
        remaining = after_it;
        match table.add(name)? {
            Added::New(_) => (),
            Added::Present(_) => return Ok(None),
        }
    }
    Ok(Some(table))
}

/// Returns the label of the name, by its position in the table. `None` if the table does not have
/// it.
fn label_of(names: &LabelledNames, table: &BorrowedNames, name: &[u8]) -> Option<usize>
    ensures { (own : List Labelled) → StoresNames names.now own → table.now ≡ map (λ n. n.name) own
        → result ≡ label_in own name.now }
{
    let entry = names.entries.get(table.find(name)?)?;
    Some(entry.label)
}

/// Appends a match if the requested name has a label. `Err` if an allocation fails.
fn add_match(
    matches: &mut Vec<Match>,
    own: Option<usize>,
    requested: usize,
) -> Result<(), AllocError>
    ensures { OnOk result
        (matches.new.items ≡ matches.old.items ++ option_to_list (option_map (labels_of requested) own)) }
{
    if let Some(own) = own {
        matches.push(Match { own, requested })?;
    }
    Ok(())
}

/// Appends the match of each requested name that is in the table. `Err` if an allocation fails.
fn match_names(
    names: &LabelledNames,
    table: &BorrowedNames,
    requested: &LabelledNames,
    matches: &mut Vec<Match>,
) -> Result<(), AllocError>
    ensures { (own questions : List Labelled) → StoresNames names.now own → table.now ≡ map (λ n. n.name) own
        → StoresNames requested.now questions
        → OnOk result (matches.new.items ≡ matches.old.items ++ matches_of own questions) }
{
    let mut remaining = requested.bytes.as_slice();
    for position in 0..requested.entries.len() {
        let entry = requested.entries.at(position);
        let (name, after_it) = cut(remaining, entry.len);
        remaining = after_it;
        add_match(matches, label_of(names, table, name), entry.label)?;
    }
    Ok(())
}

/// Appends the matches of one part and returns true. Returns false and appends no match if the part
/// has a name twice. `Err` if an allocation fails.
fn match_part(
    alloc: Global,
    names: &LabelledNames,
    requested: &LabelledNames,
    matches: &mut Vec<Match>,
) -> Result<bool, AllocError>
    ensures differ { (own : List Labelled) → StoresNames names.now own
        → IfOk result (λ differ. IsTrue differ ↔ Differ own) }
    ensures matches { (own questions : List Labelled) → StoresNames names.now own → StoresNames requested.now questions
        → IfOk result (λ differ. IsTrue differ → matches.new.items ≡ matches.old.items ++ matches_of own questions) }
{
    let Some(table) = table_of(alloc, names)? else {
        return Ok(false);
    };
    match_names(names, &table, requested, matches)?;
    Ok(true)
}

/// Returns all parts, empty. `Err` if an allocation fails.
fn empty_parts(alloc: Global) -> Result<Vec<LabelledNames>, AllocError>
    ensures { IfOk result (λ parts. ArePartsOf [] parts.items) }
{
    let mut parts = Vec::with_capacity(alloc, PARTS)?;
    for _ in 0..PARTS {
        parts.push(LabelledNames::new(alloc))?;
    }
    Ok(parts)
}

/// Appends the name to its part. `Err` if an allocation fails; the names are then unchanged.
fn push_in_part(parts: &mut Vec<LabelledNames>, label: usize, name: &[u8]) -> Result<(), AllocError>
    ensures ok { (names : List Labelled) → ArePartsOf names parts.old.items
        → OnOk result (ArePartsOf (names ++ record { label = label; name = name.now } ∷ []) parts.new.items) }
    ensures err { (names : List Labelled) → ArePartsOf names parts.old.items
        → OnErr result (ArePartsOf names parts.new.items) }
{
    let Some(part) = parts.get_mut(part_of(name)) else {
        return Ok(());
    };
    part.push(label, name)?;
    Ok(())
}

/// Returns the matches of all parts, one part after the other. `None` if a name is in the list
/// twice. `Err` if an allocation fails.
fn match_parts(
    alloc: Global,
    own: &[LabelledNames],
    requested: &[LabelledNames],
) -> Result<Option<Vec<Match>>, AllocError>
    ensures differ { (names questions : List Labelled) → ArePartsOf names own.now → ArePartsOf questions requested.now
        → IfOk result (λ answer. IfSome answer (λ matches. Differ names)) }
    ensures matches { (names questions : List Labelled) → ArePartsOf names own.now → ArePartsOf questions requested.now
        → IfOk result (λ answer. IfSome answer (λ matches. AreMatches names questions matches.items)) }
    ensures many { (names questions : List Labelled) → ArePartsOf names own.now → ArePartsOf questions requested.now
        → IfOk result (λ answer. IfSome answer (λ matches. IsPermutation (matches_of names questions) matches.items)) }
    ensures none { (names questions : List Labelled) → ArePartsOf names own.now → ArePartsOf questions requested.now
        → IfOk result (λ answer. IfNone answer (Differ names → ⊥)) }
{
    let mut matches = Vec::new(alloc);
    for (part, names) in own.iter().enumerate() {
        let Some(questions) = requested.get(part) else {
            return Ok(None);
        };
        if !match_part(alloc, names, questions, &mut matches)? {
            return Ok(None);
        }
    }
    Ok(Some(matches))
}

impl PartitionedNames {
    /// Returns an empty list. `Err` if an allocation fails.
    pub fn new(alloc: Global) -> Result<Self, AllocError>
        ensures { IfOk result (λ parts. parts ≡ []) }
    {
        Ok(PartitionedNames {
            parts: empty_parts(alloc)?,
        })
    }

    /// Adds the name with its label to its part. The same name may be added again. `Err` if an
    /// allocation fails; the list is then unchanged.
    pub fn push(&mut self, label: usize, name: &[u8]) -> Result<(), AllocError>
        ensures ok { OnOk result (IsPermutation (self.old ++ record { label = label; name = name.now } ∷ []) self.new) }
        ensures err { OnErr result (self.new ≡ self.old) }
    {
        push_in_part(&mut self.parts, label, name)?;
        Ok(())
    }

    /// Returns the two labels of each requested name that is in the list, in any order. A name that
    /// is requested twice has two matches. `None` if and only if the list has a name twice. `Err`
    /// if an allocation fails.
    pub fn matches(
        &self,
        alloc: Global,
        requested: &PartitionedNames,
    ) -> Result<Option<Vec<Match>>, AllocError>
        ensures differ { IfOk result (λ answer. IfSome answer (λ matches. Differ self.now)) }
        ensures matches { IfOk result
            (λ answer. IfSome answer (λ matches. AreMatches self.now requested.now matches.items)) }
        ensures many { IfOk result
            (λ answer. IfSome answer (λ matches. IsPermutation (matches_of self.now requested.now) matches.items)) }
        ensures none { IfOk result (λ answer. IfNone answer (Differ self.now → ⊥)) }
    {
        match_parts(alloc, &self.parts, &requested.parts)
    }
}
