//! What an export needs of the components of a document.

ghost use Rattle.std.specs.Prelude.{◌≡◌, ◌≤◌, ◌<◌, ◌++◌, ◌∷◌, [], All, IfOk, IfSome, MatchOption, OnOk, get_or, length, map};
ghost use Rattle.lf_write.specs.Keeping.{IsInText, KeepsClause, IsNext, IsEntryWithin, Denotes, all_in, clause_in};
ghost use Rattle.lf_write.specs.Export.{clause_at, clause_of, clause_with, no_clause, plain_clause};
ghost use Rattle.lf_write.specs.Export as spec;

use crate::compare::is_clause_of;
use lf_def::{Component, DefDoc, Location, PlacementClause, components_rise};
use lf_orient::Orient;
use std::alloc::{AllocError, Global};
use std::marker::Model;
use std::mem::size_of;

/// What is stored of a clause, besides its offsets.
#[derive(Clone, Copy)]
enum Form {
    /// The clause is plain: its bytes are those that are written for the component's place. The
    /// place is not stored.
    Plain,
    /// There is no clause.
    Lacking,
    /// The component has no place.
    Unplaced,
    /// The component's place has this orientation.
    Located(Orient),
}

/// The offsets of the placement clause of a component in its text, or the offset of a new one, and
/// the component's place.
#[derive(Drop)]
pub(crate) struct Clause {
    start: usize,
    stop: usize,
    x: i32,
    y: i32,
    form: Form,
}

impl Model for Clause {
    ghost use Rattle.lf_write.specs.Keeping.{clause_from_form};
    ghost use Rattle.lf_write.specs.Export.{ClauseFacts};

    ghost Value = { ClauseFacts };

    ghost view = { λ k. clause_from_form k.start k.stop k.x k.y k.form };
}

/// A `Clause` with offsets of 32 bits.
#[derive(Drop)]
struct ShortClause {
    start: u32,
    stop: u32,
    x: i32,
    y: i32,
    form: Form,
}

impl Model for ShortClause {
    ghost use Rattle.lf_write.specs.Keeping.{clause_from_form};
    ghost use Rattle.lf_write.specs.Export.{ClauseFacts};

    ghost Value = { ClauseFacts };

    ghost view = { λ k. clause_from_form k.start k.stop k.x k.y k.form };
}

/// What is stored in 8 bytes for each component.
#[derive(Clone, Copy)]
enum Entry {
    /// A plain clause with this number of bytes, which begins at this offset.
    Plain { bytes: u16, start: u32 },
    /// The position of the clause among those that are not plain.
    Other(u32),
}

// Fields are in the order of the source.
const _: () = prove!(
    size_of::<Entry>() == 8 && size_of::<ShortClause>() == 20 && size_of::<Clause>() == 32
);

/// What an export needs of the components of a text, in their order. A component with a plain
/// clause takes 8 bytes, any other 28. From the first component on whose offsets need more than 32
/// bits, each takes 32. Only a text of 4 GiB or more has such offsets.
///
/// A contract sees a list with an entry for each component. It has the offsets of the clause, or
/// those of the semicolon if there is no clause, and whether the clause is plain. If it is not
/// plain, the entry has the component's place.
#[derive(Drop)]
pub struct KeptClauses {
    /// The entries of the first components.
    entries: Vec<Entry>,
    /// The clauses of the first components that are not plain, or too long for an entry.
    others: Vec<ShortClause>,
    /// The clauses of all further components.
    far: Vec<Clause>,
}

impl Model for KeptClauses {
    ghost use Rattle.std.specs.Prelude.{List, All, length};
    ghost use Rattle.lf_write.specs.Keeping.{IsEntryWithin, all_in};
    ghost use Rattle.lf_write.specs.Export.{ClauseFacts};

    ghost Value = { List ClauseFacts };

    ghost view = { λ k. all_in k.others.items k.entries.items k.far.items };

    ghost invariant = { λ k. All (IsEntryWithin (length k.others.items)) k.entries.items };
}

/// Returns the plain clause between these offsets.
fn plain_between(start: usize, stop: usize) -> Clause
    ensures { result ≡ plain_clause start stop }
{
    Clause {
        start,
        stop,
        x: 0,
        y: 0,
        form: Form::Plain,
    }
}

/// Returns the clause between these offsets of a component with this place.
fn clause_between(start: usize, stop: usize, place: &Option<Location>) -> Clause
    ensures { result ≡ clause_at start stop place.now }
{
    match place {
        Some(at) => Clause {
            start,
            stop,
            x: at.x,
            y: at.y,
            form: Form::Located(at.orient),
        },
        None => Clause {
            start,
            stop,
            x: 0,
            y: 0,
            form: Form::Unplaced,
        },
    }
}

/// Returns the entry of a component without a clause. A new clause is inserted at this offset.
fn clause_before(semicolon: usize) -> Clause
    ensures { result ≡ no_clause semicolon }
{
    Clause {
        start: semicolon,
        stop: semicolon,
        x: 0,
        y: 0,
        form: Form::Lacking,
    }
}

/// True if the clause is plain in the text.
fn is_plain(text: &[u8], placement: &PlacementClause) -> bool
    requires order { placement.now.start ≤ placement.now.stop }
    requires within { placement.now.stop ≤ length text.now }
    ensures { result ≡ spec.is_plain text.now placement.now }
{
    is_clause_of(&text[placement.start..placement.stop], &placement.place)
}

/// Returns the clause of a component with this placement in the text.
fn clause_with_placement(text: &[u8], placement: &PlacementClause) -> Clause
    requires order { placement.now.start ≤ placement.now.stop }
    requires within { placement.now.stop ≤ length text.now }
    ensures { result ≡ clause_with (spec.is_plain text.now placement.now) placement.now }
{
    if is_plain(text, placement) {
        plain_between(placement.start, placement.stop)
    } else {
        clause_between(placement.start, placement.stop, &placement.place)
    }
}

/// Returns the clause of a component of the text.
fn clause_in_text(text: &[u8], component: &Component) -> Clause
    requires { IsInText (length text.now) component.now }
    ensures { result ≡ clause_of text.now component.now }
{
    match component.placement() {
        Some(placement) => clause_with_placement(text, &placement),
        None => clause_before(component.semicolon()),
    }
}

/// Returns the offset in 32 bits, or `None` if it needs more.
fn short_offset(offset: usize) -> Option<u32>
    ensures { IfSome result (λ short. short ≡ offset) }
{
    match u32::try_from(offset) {
        Ok(short) => Some(short),
        Err(_) => None,
    }
}

/// Returns the same clause with offsets of 32 bits, or `None` if they need more.
fn short_clause(clause: &Clause) -> Option<ShortClause>
    ensures { IfSome result (λ short. short ≡ clause.now) }
{
    let start = short_offset(clause.start)?;
    let stop = short_offset(clause.stop)?;
    Some(ShortClause {
        start,
        stop,
        x: clause.x,
        y: clause.y,
        form: clause.form,
    })
}

/// Returns the entry of the plain clause between these offsets. `None` if its length does not fit
/// into 16 bits.
fn entry_between(start: u32, stop: u32) -> Option<Entry>
    ensures { IfSome result (λ entry. Denotes entry (plain_clause start stop)) }
{
    let bytes = stop.checked_sub(start)?;
    match u16::try_from(bytes) {
        Ok(bytes) => Some(Entry::Plain { bytes, start }),
        Err(_) => None,
    }
}

/// Returns the entry of a plain clause. `None` if the clause is not plain, or if its length does
/// not fit into 16 bits.
fn plain_entry(clause: &ShortClause) -> Option<Entry>
    ensures { IfSome result (λ entry. Denotes entry clause.now) }
{
    match clause.form {
        Form::Plain => entry_between(clause.start, clause.stop),
        _ => None,
    }
}

/// Returns the entry of a clause. A clause that is not plain, or too long for an entry, is appended
/// to the others. `None` if that needs more than 32 bits; the others are then unchanged. `Err` if
/// an allocation fails.
fn entry_of(clause: &Clause, others: &mut Vec<ShortClause>) -> Result<Option<Entry>, AllocError>
    ensures { IfOk result (λ entry. MatchOption entry (others.new.items ≡ others.old.items)
        (λ entry. KeepsClause others.old.items others.new.items entry clause.now)) }
{
    let Some(short) = short_clause(clause) else {
        return Ok(None);
    };
    if let Some(entry) = plain_entry(&short) {
        return Ok(Some(entry));
    }
    let Some(at) = short_offset(others.len()) else {
        return Ok(None);
    };
    others.push(short)?;
    Ok(Some(Entry::Other(at)))
}

/// Returns the entry of the next clause. `None` if it or an earlier clause has no entry. `Err` if
/// an allocation fails.
fn next_entry(
    clause: &Clause,
    others: &mut Vec<ShortClause>,
    far: &[Clause],
) -> Result<Option<Entry>, AllocError>
    ensures { IfOk result (λ entry. MatchOption entry (others.new.items ≡ others.old.items)
        (λ entry. IsNext others.old.items others.new.items far.now entry clause.now)) }
{
    if far.is_empty() {
        entry_of(clause, others)
    } else {
        Ok(None)
    }
}

/// Stores one more clause.
fn keep(
    clause: Clause,
    entries: &mut Vec<Entry>,
    others: &mut Vec<ShortClause>,
    far: &mut Vec<Clause>,
) -> Result<(), AllocError>
    requires { All (IsEntryWithin (length others.old.items)) entries.old.items }
    ensures more { OnOk result (all_in others.new.items entries.new.items far.new.items
        ≡ all_in others.old.items entries.old.items far.old.items ++ clause ∷ []) }
    ensures within { OnOk result (All (IsEntryWithin (length others.new.items)) entries.new.items) }
{
    match next_entry(&clause, others, far.as_slice())? {
        Some(entry) => entries.push(entry)?,
        None => far.push(clause)?,
    }
    Ok(())
}

/// Returns what an export needs of these components of the text, in their order. `Err` if an
/// allocation fails.
fn kept_clauses_of(
    alloc: Global,
    text: &[u8],
    components: &[Component],
) -> Result<KeptClauses, AllocError>
    requires { All (IsInText (length text.now)) components.now }
    ensures { IfOk result (λ clauses. clauses ≡ map (clause_of text.now) components.now) }
{
    let mut entries = Vec::with_capacity(alloc, components.len())?;
    let mut others = Vec::new(alloc);
    let mut far = Vec::new(alloc);
    for component in components {
        let clause = clause_in_text(text, component);
        keep(clause, &mut entries, &mut others, &mut far)?;
    }
    Ok(KeptClauses {
        entries,
        others,
        far,
    })
}

/// Returns what an export needs of the document's components, in their order. It does not borrow
/// the document. A component with a plain clause takes 8 bytes, any other 28, and 32 if it is
/// beyond the first 4 GiB of the text. `Err` if an allocation fails.
pub fn clauses_of(alloc: Global, document: &DefDoc<'_>) -> Result<KeptClauses, AllocError>
    ensures { IfOk result (λ clauses. clauses ≡ map (clause_of document.now.text.now) document.now.components) }
{
    components_rise();
    kept_clauses_of(alloc, document.text, document.components.as_slice())
}

/// Returns the clause of an entry.
fn clause_of_entry(entry: &Entry, others: &[ShortClause]) -> Clause
    requires { IsEntryWithin (length others.now) entry.now }
    ensures { result ≡ clause_in others.now entry.now }
{
    match *entry {
        Entry::Plain { bytes, start } => {
            plain_between(start as usize, start as usize + usize::from(bytes))
        }
        Entry::Other(at) => others[at as usize].long(),
    }
}

/// Returns the clause in these lists of the component at this position.
fn clause_kept(entries: &[Entry], others: &[ShortClause], far: &[Clause], position: usize) -> Clause
    requires listed { position < length (all_in others.now entries.now far.now) }
    requires within { All (IsEntryWithin (length others.now)) entries.now }
    ensures { result ≡ get_or (all_in others.now entries.now far.now) position result }
{
    let near = entries.len();
    if position < near {
        clause_of_entry(&entries[position], others)
    } else {
        far[position - near].copied()
    }
}

impl KeptClauses {
    /// Returns the clause of the component at this position.
    pub(crate) fn at(&self, position: usize) -> Clause
        requires { position < length self.now }
        ensures { result ≡ get_or self.now position result }
    {
        clause_kept(&self.entries, &self.others, &self.far, position)
    }
}

impl ShortClause {
    /// Returns the same clause with offsets of any size.
    fn long(&self) -> Clause
        ensures { result ≡ self.now }
    {
        Clause {
            start: self.start as usize,
            stop: self.stop as usize,
            x: self.x,
            y: self.y,
            form: self.form,
        }
    }
}

impl Clause {
    /// Returns a copy of the clause.
    fn copied(&self) -> Clause
        ensures { result ≡ self.now }
    {
        Clause {
            start: self.start,
            stop: self.stop,
            x: self.x,
            y: self.y,
            form: self.form,
        }
    }

    /// Returns the component's place. `None` if it has no place or the place is not stored.
    pub(crate) fn place(&self) -> Option<Location>
        ensures { result ≡ self.now.place }
    {
        match self.form {
            Form::Located(orient) => Some(Location {
                x: self.x,
                y: self.y,
                orient,
            }),
            _ => None,
        }
    }

    /// Returns the offset at which a new clause begins.
    pub(crate) fn start(&self) -> usize
        ensures { result ≡ self.now.start }
    {
        self.start
    }

    /// Returns the offset after what a new clause replaces.
    pub(crate) fn stop(&self) -> usize
        ensures { result ≡ self.now.stop }
    {
        self.stop
    }

    /// True if the component has no clause.
    pub(crate) fn lacks(&self) -> bool
        ensures { result ≡ self.now.lacks }
    {
        match self.form {
            Form::Lacking => true,
            _ => false,
        }
    }

    /// True if the clause is plain.
    pub(crate) fn is_plain(&self) -> bool
        ensures { result ≡ self.now.plain }
    {
        match self.form {
            Form::Plain => true,
            _ => false,
        }
    }
}
