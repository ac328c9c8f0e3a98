//! The floor of a design without placed cells.

ghost use Rattle.std.specs.Prelude.{◌≡◌, IfOk, map, replicate};
ghost use Rattle.lf_floor_model.specs.Designs.{initial_floor};
ghost use Rattle.lf_floor.specs.Saved.{ShareDesign};
ghost use Rattle.lf_floor.specs.StartUnplaced.{AreOfDesign, HaveSameCells, loaded_cells};

use crate::floor::Floor;
use lf_cells::{CellId, CellTable};
use lf_floor_verbs::Tables;
use lf_floorplan::Loaded;
use lf_legalize::Seeker;
use lf_placement::Placement;
use lf_rules::Padding;
use lf_sessions::SessionTable;
use lf_undo::UndoStore;
use std::alloc::{AllocError, Global};

/// Unplaces a cell.
fn unplace(cells: &mut CellTable, id: CellId)
    ensures { HaveSameCells cells.old cells.new }
{
    cells.set_working(id, None);
}

/// Commits the working places of the team's cells.
fn commit(cells: &mut CellTable, team: usize)
    ensures { HaveSameCells cells.old cells.new }
{
    cells.commit_team(team);
}

/// Unplaces the cell and the cells with lower positions in its team.
fn unplace_up_to(cells: &mut CellTable, last: CellId)
    ensures { HaveSameCells cells.old cells.new }
{
    for own in 0..last.own {
        let id = CellId {
            team: last.team,
            own,
        };
        unplace(cells, id);
    }
    unplace(cells, last);
}

/// Removes the working and committed places of the team's cells.
fn unplace_team(cells: &mut CellTable, team: usize)
    ensures { HaveSameCells cells.old cells.new }
{
    let Some(&last) = cells.cells_of(team).last() else {
        return;
    };
    unplace_up_to(cells, last);
    commit(cells, team);
}

/// Removes the working and committed places of the cells of the first `teams` teams.
fn without_places(cells: CellTable, teams: usize) -> CellTable
    ensures { HaveSameCells cells result }
{
    let mut bare = cells;
    for team in 0..teams {
        unplace_team(&mut bare, team);
    }
    bare
}

/// The placement of a design without placed cells.
///
/// `Err` if an allocation fails; the design is then dropped.
fn bare_placement(alloc: Global, loaded: Loaded) -> Result<Placement, AllocError>
    ensures frame { IfOk result (λ placement. placement.frame ≡ loaded.frame) }
    ensures cells { IfOk result (λ placement. HaveSameCells (loaded_cells loaded) placement.cells) }
{
    let teams = loaded.frame.teams.len() + 1;
    let (frame, cells) = CellTable::build(alloc, loaded)?;
    let bare = without_places(cells, teams);
    Placement::of(alloc, frame, bare)
}

/// Returns a padding of 0 for each of `teams` teams.
///
/// `Err` if an allocation fails.
fn unpadded(alloc: Global, teams: usize) -> Result<Vec<Padding>, AllocError>
    ensures { IfOk result (λ paddings. map (λ padding. padding.sites) paddings.items ≡ replicate teams 0) }
{
    vec![in alloc; Padding::none(); teams]
}

/// The tables of a design without placed cells. There is no change, undo entry or open session, and
/// no team has a padding.
///
/// `Err` if an allocation fails; the design is then dropped.
fn bare_tables(alloc: Global, loaded: Loaded) -> Result<Tables, AllocError>
    ensures { IfOk result (λ tables. AreOfDesign loaded tables) }
{
    let teams = loaded.frame.teams.len() + 1;
    let undo = UndoStore::build(alloc, teams, loaded.frame.limits.undo as usize)?;
    let sessions = SessionTable::build(alloc, teams, loaded.frame.limits.sessions)?;
    let revisions = vec![in alloc; 0; teams]?;
    let paddings = unpadded(alloc, teams)?;
    let placement = bare_placement(alloc, loaded)?;
    Ok(Tables {
        placement,
        undo,
        sessions,
        revisions,
        paddings,
    })
}

impl<S: Seeker + Drop> Floor<S> {
    /// Makes a floor of a loaded design for `restore_saved`. The contract specifies its design and
    /// nothing else. No cell is placed, so no strip is filled with the places of the DEF text.
    /// `seeker` is the search for best places.
    ///
    /// `Err` if an allocation fails; the design and the seeker are then dropped.
    pub fn start_unplaced(alloc: Global, loaded: Loaded, seeker: S) -> Result<Floor<S>, AllocError>
        ensures design { IfOk result (λ floor. ShareDesign (initial_floor loaded) floor) }
    {
        let tables = bare_tables(alloc, loaded)?;
        Ok(Floor {
            alloc,
            seeker,
            tables,
        })
    }
}
