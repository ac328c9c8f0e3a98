//! The exported text.

ghost use Rattle.std.specs.Prelude.{◌≡◌, ◌++◌, ◌≤◌, ◌-◌, ℕ, List, Option, All, IfOk, OnOk, drop, length, slice_get, take};
ghost use Rattle.std.specs.Io.KnownBytes.{Appends};
ghost use Rattle.lf_def.specs.Contents.{contents};
ghost use Rattle.lf_floorplan.specs.declared.place.Place.{Place};
ghost use Rattle.lf_write.specs.Export.{AreExportable, CanBeRenewed, exported, renewed, splice_at};
ghost use Rattle.lf_write.specs.Export as spec;
ghost use Rattle.lf_write.specs.Laws.{FitsText, WrittenReadsBack};

use crate::clause_text::put_new_clause;
use crate::kept_clauses::{Clause, KeptClauses, clauses_of};
use crate::laws::{exports_read_back, kept_clauses_suffice};
use lf_def::{DefDoc, Location};
use lf_floorplan::Place;
use lf_orient::orient_word;
use std::alloc::{AllocError, Global};
use std::io;
use std::io::Write;

/// Places that components are given, looked up one by one.
pub trait NewPlaces {
    /// The places, each with the position of its component among all components of the text. `None`
    /// unplaces the component.
    ghost places: { Self → List (ℕ × Option Place) };

    /// Returns the number of places.
    fn count(&self) -> usize
        ensures { result ≡ length (places self.now) };

    /// Returns the place at this position in the list, or `None` after the last.
    fn place(&self, at: usize) -> Option<(usize, Option<Place>)>
        ensures { result ≡ slice_get (places self.now) at };
}

/// Places in a list.
#[derive(Drop)]
struct Listed<'a> {
    places: &'a [(usize, Option<Place>)],
}

impl<'a> NewPlaces for Listed<'a> {
    ghost places = { λ l. l.places.now };

    fn count(&self) -> usize {
        self.places.len()
    }

    fn place(&self, at: usize) -> Option<(usize, Option<Place>)> {
        self.places.get(at).copied()
    }
}

/// True if a component at this location is at the place.
fn is_at(location: &Option<Location>, place: &Option<Place>) -> bool
    ensures { result ≡ spec.is_at location.now place.now }
{
    match (location, place) {
        (None, None) => true,
        (Some(at), Some(place)) => {
            at.x == place.x
                && at.y == place.y
                && orient_word(at.orient) == orient_word(place.orient)
        }
        _ => false,
    }
}

/// True if the clause is unchanged when its component is given the place.
fn is_unchanged(clause: &Clause, place: &Option<Place>) -> bool
    ensures { result ≡ spec.is_unchanged clause.now place.now }
{
    !clause.is_plain() && is_at(&clause.place(), place)
}

/// Writes the bytes from one offset up to another.
fn put_part<W: Write>(out: &mut W, text: &[u8], from: usize, to: usize) -> io::Result<()>
    requires order { from ≤ to }
    requires within { to ≤ length text.now }
    ensures { OnOk result (Appends (W.contents out.old) (W.contents out.new) (take (to - from) (drop from text.now))) }
{
    out.write_all(&text[from..to])
}

/// Writes the bytes from an offset on.
fn put_rest<W: Write>(out: &mut W, text: &[u8], from: usize) -> io::Result<()>
    requires { from ≤ length text.now }
    ensures { OnOk result (Appends (W.contents out.old) (W.contents out.new) (drop from text.now)) }
{
    out.write_all(&text[from..])
}

/// Writes the text from an offset up to the clause, and the new clause. Returns the offset after
/// what the new clause replaces.
fn put_change<W: Write>(
    out: &mut W,
    text: &[u8],
    at: usize,
    clause: &Clause,
    place: &Option<Place>,
) -> io::Result<usize>
    requires order { at ≤ clause.now.start }
    requires within { clause.now.start ≤ length text.now }
    ensures bytes { OnOk result (Appends (W.contents out.old) (W.contents out.new)
        (take (clause.now.start - at) (drop at text.now) ++ (splice_at clause.now place.now).new)) }
    ensures after_it { IfOk result (λ stop. stop ≡ clause.now.stop) }
{
    put_part(out, text, at, clause.start())?;
    put_new_clause(out, clause.lacks(), place)?;
    Ok(clause.stop())
}

/// Proves that a DEF text can hold the coordinates of a place.
fn fits_text(place: &Option<Place>)
    ensures { FitsText place.now }
{
    if let Some(place) = place {
        let _x = place.x;
        let _y = place.y;
    }
}

/// Writes the text with these places given to the components of these clauses. Writes piece by
/// piece and allocates nothing. Every byte outside the clauses that are written again is copied. A
/// plain clause is always written again. If its component stays, the same bytes are written.
///
/// On success exactly that text is appended to the writer's bytes, if contracts know them. `Err` if
/// a write fails.
///
/// The places must be those of clauses that are in order in the text, without overlap. This holds
/// if the clauses are those of `clauses_of` and the places can be given in an `export` of the
/// document (`kept_clauses_suffice`).
pub fn write_export<G: NewPlaces, W: Write>(
    out: &mut W,
    text: &[u8],
    clauses: &KeptClauses,
    given: &G,
) -> io::Result<()>
    requires { CanBeRenewed text.now clauses.now (G.places given.now) }
    ensures bytes { OnOk result
        (Appends (W.contents out.old) (W.contents out.new) (renewed text.now clauses.now (G.places given.now))) }
    ensures fit { OnOk result (All (λ g. FitsText g.1) (G.places given.now)) }
{
    let mut at = 0;
    for number in 0..given.count() {
        let Some((position, place)) = given.place(number) else {
            unreachable!();
        };
        fits_text(&place);
        let clause = clauses.at(position);
        if !is_unchanged(&clause, &place) {
            at = put_change(out, text, at, &clause, &place)?;
        }
    }
    put_rest(out, text, at)?;
    Ok(())
}

/// Returns the document's text with a new placement clause for each listed component whose given
/// place differs from the document's. A new clause replaces the old one, from its `+` to the end of
/// its last token. It is `+ PLACED ( x y ) orient`, or `+ UNPLACED`. If there is no old clause, the
/// new one and a space are inserted directly in front of the `;`. Every other byte is unchanged,
/// and so is each component that is at its place already.
///
/// A component is listed by its position among all components of the text. Positions rise, and no
/// listed component is FIXED or COVER. Reading the text again gives the document with these places
/// in it, except for the positions of its components in the text. `Err` if an allocation fails.
pub fn export(
    alloc: Global,
    document: &DefDoc<'_>,
    places: &[(usize, Option<Place>)],
) -> Result<Vec<u8>, AllocError>
    requires places { AreExportable document.now.components places.now }
    ensures bytes { IfOk result
        (λ text. text.items ≡ exported document.now.text.now document.now.components places.now) }
    ensures again { IfOk result (λ text. WrittenReadsBack text.items places.now (contents document.now)) }
{
    kept_clauses_suffice();
    exports_read_back();
    let clauses = clauses_of(alloc, document)?;
    let mut out = Vec::with_capacity(alloc, document.text.len())?;
    match write_export(&mut out, document.text, &clauses, &Listed { places }) {
        Ok(()) => Ok(out),
        Err(_) => Err(AllocError),
    }
}
