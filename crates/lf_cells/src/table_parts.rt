//! The lists of a table, and how a loaded design fills them.

ghost use Rattle.std.specs.Prelude.{◌≡◌, ◌≤◌, ◌<◌, ◌+◌, ◌++◌, ◌∷◌, [], All, OnOk, IfOk, length, map, replicate, slice_get, slice_index_or, slice_set};
ghost use Rattle.lf_cells.specs.Records.{moved_records, committed_record, record_at, AddsCell, AreAdded};
ghost use Rattle.lf_cells.specs.Cells.{id_of};

use crate::cell::CellId;
use crate::ids::Ids;
use crate::records::{CellRecord, TeamCells};
use lf_floorplan::{CellParts, Place, UnnamedCell};
use lf_names::NameTable;
use std::alloc::{AllocError, Global};

/// The lists of a table.
#[derive(Drop)]
pub(crate) struct TableParts {
    /// The names of all cells, in loading order.
    pub(crate) names: NameTable,
    /// The cell with each of the names.
    pub(crate) owners: Vec<CellId>,
    /// Each team's cells without their names.
    pub(crate) teams: Vec<TeamCells>,
    /// The ids of each team's cells.
    pub(crate) ids: Vec<Ids>,
}

/// Returns the id of the team's cell at this position.
fn id_of(team: usize, own: usize) -> CellId
    requires team { team ≤ 4000000 }
    requires own { own ≤ 4000000 }
    ensures { result ≡ id_of team own }
{
    CellId {
        team: team as u32,
        own: own as u32,
    }
}

/// Appends a cell to its team. `Err` if an allocation fails.
fn push_cell(teams: &mut Vec<TeamCells>, team: usize, slot: CellRecord) -> Result<(), AllocError>
    requires { team < length teams.old.items }
    ensures { OnOk result
        (teams.new.items ≡ slice_set teams.old.items team (slice_index_or teams.old.items team [] ++ slot ∷ [])) }
{
    teams[team].push(slot)
}

/// Appends an id to its team. `Err` if an allocation fails.
fn push_id(ids: &mut Vec<Ids>, team: usize, id: CellId) -> Result<(), AllocError>
    requires { team < length ids.old.items }
    ensures { OnOk result
        (ids.new.items ≡ slice_set ids.old.items team (slice_index_or ids.old.items team [] ++ id ∷ [])) }
{
    ids[team].push(id)
}

/// Changes the working place of a team's cell, if the team has the cell.
pub(crate) fn move_cell(teams: &mut Vec<TeamCells>, team: usize, own: usize, place: Option<Place>)
    requires { team < length teams.old.items }
    ensures { teams.new.items
        ≡ slice_set teams.old.items team (moved_records (slice_index_or teams.old.items team []) own place) }
{
    teams[team].set_working(own, place);
}

/// Commits the working places of the team's cells.
pub(crate) fn commit_cells(teams: &mut Vec<TeamCells>, team: usize)
    requires { team < length teams.old.items }
    ensures { teams.new.items
        ≡ slice_set teams.old.items team (map committed_record (slice_index_or teams.old.items team [])) }
{
    teams[team].commit();
}

/// Returns a list of `count` teams without cells. `Err` if an allocation fails.
fn empty_teams(alloc: Global, count: usize) -> Result<Vec<TeamCells>, AllocError>
    ensures { IfOk result (λ teams. teams.items ≡ replicate count []) }
{
    let mut teams = Vec::new(alloc);
    for _ in 0..count {
        teams.push(TeamCells::new(alloc))?;
    }
    Ok(teams)
}

/// Returns a list of `count` teams without ids. `Err` if an allocation fails.
fn empty_ids(alloc: Global, count: usize) -> Result<Vec<Ids>, AllocError>
    ensures { IfOk result (λ ids. ids.items ≡ replicate count []) }
{
    let mut ids = Vec::new(alloc);
    for _ in 0..count {
        ids.push(Ids::new(alloc))?;
    }
    Ok(ids)
}

impl TableParts {
    /// Appends the cell to its team. `Err` if an allocation fails.
    fn add_cell(&mut self, cell: &UnnamedCell) -> Result<(), AllocError>
        requires team { cell.now.team < length self.old.teams.items }
        requires ids { length self.old.ids.items ≡ length self.old.teams.items }
        requires few_teams { length self.old.teams.items ≤ 4000000 }
        requires few_cells { length self.old.owners.items ≤ 4000000 }
        requires few_own { length (slice_index_or self.old.teams.items cell.now.team []) ≤ 4000000 }
        ensures { OnOk result (AddsCell cell.now self.old self.new) }
    {
        let label = self.owners.len() as u32;
        let team = cell.team as usize;
        let id = id_of(team, self.teams[team].len());
        self.owners.push(id)?;
        push_id(&mut self.ids, team, id)?;
        push_cell(&mut self.teams, team, CellRecord::initial(label, cell))
    }

    /// Returns the lists of a table for these cells and for `count` teams. `Err` if an allocation
    /// fails.
    pub(crate) fn of_cells(
        alloc: Global,
        count: usize,
        loaded: CellParts,
    ) -> Result<TableParts, AllocError>
        requires known { All (λ c. c.team < count) loaded.cells.items }
        requires few_teams { count ≤ 4000000 }
        requires few_cells { length loaded.cells.items ≤ 4000000 }
        ensures { IfOk result (λ parts. AreAdded loaded.names loaded.cells.items count parts) }
    {
        let CellParts { names, cells } = loaded;
        let mut parts = TableParts {
            names,
            owners: Vec::new(alloc),
            teams: empty_teams(alloc, count)?,
            ids: empty_ids(alloc, count)?,
        };
        for cell in &cells {
            parts.add_cell(cell)?;
        }
        Ok(parts)
    }

    /// Returns the team's cell at this position, without its name. `None` if there is no such cell.
    pub(crate) fn slot(&self, team: usize, own: usize) -> Option<CellRecord>
        ensures { result ≡ record_at self.now.teams.items (id_of team own) }
    {
        self.teams.get(team)?.get(own)
    }

    /// Returns the ids of the team's cells; empty if there is no such team.
    pub(crate) fn ids_of(&self, team: usize) -> &[CellId]
        ensures { result.now ≡ slice_index_or self.now.ids.items team [] }
    {
        match self.ids.get(team) {
            Some(ids) => ids.as_slice(),
            None => &[],
        }
    }
}
