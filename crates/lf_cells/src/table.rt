//! The table of all teams' cells.

ghost use Rattle.std.specs.Prelude.{◌≡◌, ◌+◌, ◌<◌, [], IfOk, IfSome, length, map, option_map, slice_get, slice_set};
ghost use Rattle.lf_cells.specs.Cells.{AreAllIds, cells_of, cell_named, cell_at, component_at, id_in, ids_of};
ghost use Rattle.lf_cells.specs.Cells.{placement_of, working_at, committed_at, moved, as_committed};
ghost use Rattle.lf_cells.specs.Initial.{initial_cells, initial_components};

use crate::cell::{CellFacts, CellId, CellPlacement};
use crate::table_parts::{TableParts, commit_cells, move_cell};
use lf_floorplan::{Frame, Loaded, Place};
use std::alloc::{AllocError, Global};
use std::marker::Model;

/// The cells of all teams of a loaded design. A team's number is its position among the fences of
/// the frame; the ground team `-` is last.
///
/// Contracts see for each team, in loading order, its cells and the positions of their entries
/// among all COMPONENTS of the DEF text. Only `build` allocates.
pub struct CellTable {
    parts: TableParts,
}

/// Written by hand: with a derived `drop`, the proof of each function that drops a `CellTable`
/// unfolds its fields.
impl Drop for CellTable {
    fn drop(self) {
        let CellTable { parts: _ } = self;
    }
}

impl Model for CellTable {
    ghost use Rattle.lf_cells.specs.Cells.{Cells};

    ghost Value = { Cells };

    ghost use Rattle.lf_cells.specs.Records.{table_of, AreIndexed};

    ghost view = { λ t. table_of t.parts };

    ghost invariant = { λ t. AreIndexed t.parts };
}

impl CellTable {
    /// Returns the frame of a design, and the table of its cells. Each team has its own cells, in
    /// loading order. Each cell's working place and committed place are its place in the DEF text.
    /// The table of names moves from the design into this one.
    ///
    /// `Err` if an allocation fails; the design is then dropped.
    pub fn build(alloc: Global, loaded: Loaded) -> Result<(Frame, CellTable), AllocError>
        ensures frame { IfOk result (λ built. built.0 ≡ loaded.frame) }
        ensures cells { IfOk result (λ built. built.1.cells ≡ initial_cells loaded) }
        ensures components { IfOk result (λ built. built.1.components ≡ initial_components loaded) }
    {
        let Loaded { frame, cells } = loaded;
        let count = frame.teams.len() + 1;
        let parts = TableParts::of_cells(alloc, count, cells.into_parts())?;
        Ok((frame, CellTable { parts }))
    }

    /// Returns the team's cell with this name. `None` iff the team has no such cell, even if
    /// another team has one.
    pub fn find_own(&self, team: usize, name: &[u8]) -> Option<CellId>
        ensures own { option_map (λ id. id.own) result ≡ cell_named name.now (cells_of self.now team) }
        ensures team { IfSome result (λ id. id.team ≡ team) }
        ensures within { IfSome result (λ id. id.own < length (cells_of self.now team)) }
    {
        let label = self.parts.names.find(name)?;
        let id = self.parts.owners[label];
        if id.team as usize == team {
            return Some(id);
        }
        None
    }

    /// Returns the ids of the team's cells, in loading order; empty if there is no such team.
    pub fn cells_of(&self, team: usize) -> &[CellId]
        ensures { result.now ≡ ids_of team (cells_of self.now team) }
    {
        self.parts.ids_of(team)
    }

    /// Returns the id of the team's cell at this position. `None` iff the team has no such cell.
    pub fn cell_of(&self, team: usize, own: usize) -> Option<CellId>
        ensures { result ≡ id_in (cells_of self.now team) team own }
    {
        match self.cells_of(team).get(own) {
            Some(id) => Some(*id),
            None => None,
        }
    }

    /// Returns the ids of the cells of all teams, in loading order: the positions of their entries
    /// among all COMPONENTS rise.
    pub fn cell_ids(&self) -> &[CellId]
        ensures { AreAllIds self.now result.now }
    {
        self.parts.owners.as_slice()
    }

    /// Returns the name, the macro and the entry of a cell, which no command changes. `None` iff
    /// there is no such cell.
    pub fn cell(&self, id: CellId) -> Option<CellFacts<'_>>
        ensures name { option_map (λ facts. facts.name.now) result ≡ option_map (λ c. c.name) (cell_at self.now id) }
        ensures mac { option_map (λ facts. facts.mac) result ≡ option_map (λ c. c.mac) (cell_at self.now id) }
        ensures component { option_map (λ facts. facts.component) result ≡ component_at self.now id }
    {
        let slot = self.parts.slot(id.team as usize, id.own as usize)?;
        Some(CellFacts {
            name: self.parts.names.name_at(slot.label as usize)?,
            mac: slot.mac as usize,
            component: slot.component as usize,
        })
    }

    /// Returns the macro and working place of a cell. `None` iff there is no such cell.
    pub fn placement_of(&self, id: CellId) -> Option<CellPlacement>
        ensures { result ≡ option_map placement_of (slice_get (cells_of self.now id.team) id.own) }
    {
        let slot = self.parts.slot(id.team as usize, id.own as usize)?;
        Some(CellPlacement {
            mac: slot.mac as usize,
            working: slot.working.place(),
        })
    }

    /// Returns the working place of a cell. `None` if it is unplaced, or there is no such cell.
    pub fn working(&self, id: CellId) -> Option<Place>
        ensures { result ≡ working_at (cells_of self.now id.team) id.own }
    {
        let slot = self.parts.slot(id.team as usize, id.own as usize)?;
        slot.working.place()
    }

    /// Returns the committed place of a cell. `None` if it is unplaced, or there is no such cell.
    pub fn committed(&self, id: CellId) -> Option<Place>
        ensures { result ≡ committed_at (cells_of self.now id.team) id.own }
    {
        self.parts
            .slot(id.team as usize, id.own as usize)?
            .committed
            .place()
    }

    /// Changes the working place of one cell and nothing else. Changes nothing if there is no such
    /// cell.
    pub fn set_working(&mut self, id: CellId, place: Option<Place>)
        ensures cells { self.new.cells
            ≡ slice_set self.old.cells id.team (moved (cells_of self.old id.team) id.own place) }
        ensures components { self.new.components ≡ self.old.components }
    {
        let team = id.team as usize;
        if team < self.parts.teams.len() {
            move_cell(&mut self.parts.teams, team, id.own as usize, place);
        }
    }

    /// Commits the working places of the team's cells, and changes nothing else.
    pub fn commit_team(&mut self, team: usize)
        ensures cells { self.new.cells ≡ slice_set self.old.cells team (map as_committed (cells_of self.old team)) }
        ensures components { self.new.components ≡ self.old.components }
    {
        if team < self.parts.teams.len() {
            commit_cells(&mut self.parts.teams, team);
        }
    }
}
