//! The committed or the working places of all cells.

ghost use Rattle.std.specs.Prelude.{◌≡◌, IfOk, IsSome, List, length, map, slice_get};
ghost use Rattle.lf_cells.specs.declared.cell.CellId.{CellId};
ghost use Rattle.lf_cells.specs.Cells.{AreAllIds, component_at};
ghost use Rattle.lf_floor.specs.Entries as entries;
ghost use Rattle.lf_floor.specs.Entries.{committed_entry};

use lf_cells::{CellId, CellTable};
use lf_floorplan::Place;
use std::alloc::{AllocError, Global};
use std::marker::Model;

/// Which of its two places a cell is listed with.
#[derive(Clone, Copy, Debug, PartialEq, Eq)]
pub enum PlaceKind {
    Committed,
    Working,
}

/// Returns the cell's place of this kind.
fn place_of_kind(cells: &CellTable, kind: PlaceKind, id: CellId) -> Option<Place>
    ensures { result ≡ entries.place_of_kind kind cells.now id }
{
    match kind {
        PlaceKind::Committed => cells.committed(id),
        PlaceKind::Working => cells.working(id),
    }
}

/// Returns the position of the cell's entry among all COMPONENTS, and its place of this kind.
fn place_entry(cells: &CellTable, kind: PlaceKind, id: CellId) -> (usize, Option<Place>)
    requires { IsSome (component_at cells.now id) }
    ensures { result ≡ entries.place_entry kind cells.now id }
{
    match cells.cell(id) {
        Some(facts) => (facts.component, place_of_kind(cells, kind, id)),
        None => unreachable!(),
    }
}

/// Returns the entries and committed places of all cells, in loading order.
///
/// `Err` if an allocation fails.
pub(crate) fn all_committed(
    alloc: Global,
    cells: &CellTable,
) -> Result<Vec<(usize, Option<Place>)>, AllocError>
    ensures { IfOk result (λ places. (ids : List CellId) × AreAllIds cells.now ids
        × (places.items ≡ map (committed_entry cells.now) ids)) }
{
    let ids = cells.cell_ids();
    let mut places = Vec::with_capacity(alloc, ids.len())?;
    for id in ids {
        places.push(place_entry(cells, PlaceKind::Committed, *id))?;
    }
    Ok(places)
}

/// The committed or the working places of all cells, in loading order, looked up one by one.
///
/// Contracts see the list: the position of each cell's entry among all COMPONENTS of the DEF text,
/// and its place.
#[derive(Drop)]
pub struct CellPlaces<'a> {
    cells: &'a CellTable,
    ids: &'a [CellId],
    kind: PlaceKind,
}

impl<'a> Model for CellPlaces<'a> {
    ghost use Rattle.std.specs.Prelude.{ℕ, List, Option, map};
    ghost use Rattle.lf_floorplan.specs.declared.place.Place.{Place};
    ghost use Rattle.lf_cells.specs.Cells.{AreAllIds};
    ghost use Rattle.lf_floor.specs.Entries.{place_entry};

    ghost Value = { List (ℕ × Option Place) };

    ghost view = { λ p. map (place_entry p.kind p.cells.now) p.ids.now };

    ghost invariant = { λ p. AreAllIds p.cells.now p.ids.now };
}

/// Returns the places of this kind of the cells of the table.
pub(crate) fn places_of(cells: &CellTable, kind: PlaceKind) -> CellPlaces<'_>
    ensures { (ids : List CellId) × AreAllIds cells.now ids
        × (result ≡ map (entries.place_entry kind cells.now) ids) }
{
    CellPlaces {
        cells,
        ids: cells.cell_ids(),
        kind,
    }
}

/// Returns the list's element at that position.
fn entry_at(
    cells: &CellTable,
    kind: PlaceKind,
    ids: &[CellId],
    at: usize,
) -> Option<(usize, Option<Place>)>
    requires { AreAllIds cells.now ids.now }
    ensures { result ≡ slice_get (map (entries.place_entry kind cells.now) ids.now) at }
{
    if at >= ids.len() {
        return None;
    }
    Some(place_entry(cells, kind, ids[at]))
}

impl<'a> CellPlaces<'a> {
    /// Returns the number of cells.
    pub fn len(&self) -> usize
        ensures { result ≡ length self.now }
    {
        self.ids.len()
    }

    /// Returns the element at this position of the list. `None` if the position is `len` or more.
    pub fn at(&self, at: usize) -> Option<(usize, Option<Place>)>
        ensures { result ≡ slice_get self.now at }
    {
        entry_at(self.cells, self.kind, self.ids, at)
    }
}
