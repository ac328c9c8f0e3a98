//! Floors restored from state texts.

ghost use Rattle.std.specs.Prelude.{◌≡◌, ◌≢◌, ◌↔◌, ◌≤◌, ℕ, [], List, IfErr, IfOk, OnOk, Ok, length, map};
ghost use Rattle.lf_occupancy.specs.Views.{KeepsCapacities};
ghost use Rattle.lf_rules.specs.FullyLegal.{IsFullyLegal};
ghost use Rattle.lf_floor_model.specs.Committed.{IsCommittedLegal};
ghost use Rattle.lf_floor_model.specs.States.{FloorState};
ghost use Rattle.lf_state_text.specs.declared.fault.StateError.TheVariants.{Memory};
ghost use Rattle.lf_state_text.specs.Pieces.{text_of_chunks};
ghost use Rattle.lf_state_text.specs.Refused.{ReturnsIn, HoldsEnd};
ghost use Rattle.lf_state_text.specs.Reading.{FailsAt, ReturnsAt, saved_state_of};
ghost use Rattle.lf_state_text.specs.Saved.{SavedTeam, team_view, team_views, IsSavedTeamOf};
ghost use Rattle.lf_floor.specs.Saved.{MatchDesign, ShareDesign, IsRestoredFrom, IsStateText, design_names, named_team, restored_floor, restored_team, saved_design};
ghost use Rattle.lf_floor.specs.Placed.{without_cells};
ghost use Rattle.lf_floor.specs.SavedStates.{HasNoEntriesYet, FirstHaveNoEntriesYet, HasNumbers, PlacesTeams, saved_teams_at, saved_team_at};
ghost use Rattle.lf_floor_verbs.specs.Tables.{AreTables, EntriesFit, HasRows, HasTeamRow, KeepsOtherTeams, floor_in, frame_of, own_team, teams_in};

use crate::floor::Floor;
use crate::restored_cells::place_teams;
use crate::restored_entries::restore_entries;
use crate::restoring_laws::{restored_is_committed, saved_restores};
use crate::state_view::StateView;
use lf_floor_verbs::Tables;
use lf_floorplan::Frame;
use lf_legalize::Seeker;
use lf_occupancy::StripCounts;
use lf_rules::Padding;
use lf_state_text::{ChunkError, SavedTeamRow, StateError, read_chunks, read_state};
use lf_undo::UndoStore;
use std::alloc::{AllocError, Global};
use std::collections::VecDeque;

/// A law: a frame has at most 64 session slots for each team.
fn slots_are_few(frame: &Frame)
    ensures { frame.now.limits.sessions ≤ 64 }
{
    let _most = frame.limits.sessions;
}

/// Sets the team's revision, padding and session slots.
fn set_numbers(
    tables: &mut Tables,
    number: usize,
    revision: u32,
    padding: Padding,
    slots: Vec<Option<u32>>,
)
    requires rows { HasRows number tables.old }
    requires few { length slots.items ≤ 4294967295 }
    ensures { HasNumbers number revision padding.sites slots.items tables.old tables.new }
{
    tables.revisions[number] = revision;
    tables.set_padding(number, padding);
    tables.sessions.set_slots(number, slots);
}

/// Restores the revision, padding, session slots and undo entries of the team of that number. Its
/// cells are placed already, and it has no undo entry yet. `counts` has the number of its boxes in
/// each strip.
///
/// `Err` if an allocation fails.
fn restore_team(
    alloc: Global,
    tables: &mut Tables,
    counts: &mut StripCounts,
    number: usize,
    row: SavedTeamRow,
) -> Result<(), AllocError>
    requires served { HasTeamRow number tables.old }
    requires due { IsSavedTeamOf (frame_of tables.old).limits (named_team [] (own_team number tables.old))
        (saved_team_at (own_team number tables.old) (team_view row)) }
    requires room { KeepsCapacities counts.old tables.old.placement.held.rooms }
    requires awaits { HasNoEntriesYet number counts.old tables.old }
    ensures team { OnOk result (own_team number tables.new
        ≡ restored_team (own_team number tables.old) (saved_team_at (own_team number tables.old) (team_view row))) }
    ensures others { OnOk result (KeepsOtherTeams number tables.old tables.new) }
    ensures cells { OnOk result (tables.new.placement.cells ≡ tables.old.placement.cells) }
    ensures fit { OnOk result (EntriesFit number tables.new) }
    ensures room { OnOk result (KeepsCapacities counts.new tables.new.placement.held.rooms) }
    ensures awaits { (other : ℕ) → other ≢ number → HasNoEntriesYet other counts.old tables.old
        → OnOk result (HasNoEntriesYet other counts.new tables.new) }
{
    let SavedTeamRow {
        revision,
        padding,
        slots,
        cells: _,
        entries,
    } = row;
    slots_are_few(tables.placement.frame());
    restore_entries(
        alloc,
        &mut tables.placement,
        counts,
        &mut tables.undo,
        number,
        entries,
    )?;
    set_numbers(tables, number, revision, padding, slots);
    Ok(())
}

/// Restores the teams from their rows, from the last to the first, except their cells, which are
/// placed already.
///
/// `Err` if an allocation fails.
fn restore_teams(
    alloc: Global,
    tables: &mut Tables,
    counts: &mut StripCounts,
    rows: Vec<SavedTeamRow>,
) -> Result<(), AllocError>
    requires tables { AreTables tables.old }
    requires many { length rows.items ≡ length (teams_in tables.old) }
    requires due { MatchDesign (frame_of tables.old).limits (teams_in tables.old)
        (saved_teams_at tables.old (team_views rows.items)) }
    requires room { KeepsCapacities counts.old tables.old.placement.held.rooms }
    requires each { FirstHaveNoEntriesYet (length rows.items) counts.old tables.old }
    ensures tables { OnOk result (AreTables tables.new) }
    ensures floor { OnOk result (floor_in tables.new
        ≡ restored_floor (floor_in tables.old) (saved_teams_at tables.old (team_views rows.items))) }
{
    let mut left = rows;
    while !left.is_empty() {
        let Some(row) = left.pop() else {
            unreachable!();
        };
        let number = left.as_slice().len();
        restore_team(alloc, tables, counts, number, row)?;
    }
    Ok(())
}

/// Returns the tables with the cells of all teams at their saved places, and without undo entries.
/// Empties the list of cells of each saved team (`SavedTeamRow`), which frees its memory.
///
/// `Err` if an allocation fails; the tables are then dropped.
fn place_cells(
    alloc: Global,
    tables: Tables,
    rows: &mut [SavedTeamRow],
) -> Result<Tables, AllocError>
    requires tables { AreTables tables }
    requires due { MatchDesign (frame_of tables).limits (teams_in tables) (team_views rows.old) }
    ensures places { IfOk result (PlacesTeams (team_views rows.old) tables) }
    ensures rows { team_views rows.new ≡ map without_cells (team_views rows.old) }
{
    let Tables {
        placement,
        undo: _,
        sessions,
        revisions,
        paddings,
    } = tables;
    let placed = place_teams(alloc, placement, rows)?;
    let teams = placed.frame().teams.len() + 1;
    let limit = placed.frame().limits.undo as usize;
    let undo = UndoStore::build(alloc, teams, limit)?;
    Ok(Tables {
        placement: placed,
        undo,
        sessions,
        revisions,
        paddings,
    })
}

/// Returns the tables in the state of the rows. First all cells are placed, then the rest of each
/// team is restored.
///
/// `Err` if an allocation fails; the tables are then dropped.
fn restored_by(alloc: Global, tables: Tables, rows: Vec<SavedTeamRow>) -> Result<Tables, AllocError>
    requires tables { AreTables tables }
    requires due { MatchDesign (frame_of tables).limits (teams_in tables) (team_views rows.items) }
    ensures tables { IfOk result AreTables }
    ensures floor { IfOk result (λ now. floor_in now ≡ restored_floor (floor_in tables) (team_views rows.items)) }
{
    let mut left = rows;
    let mut placed = place_cells(alloc, tables, &mut left)?;
    let mut tally = placed.placement.strip_counts(alloc)?;
    restore_teams(alloc, &mut placed, &mut tally, left)?;
    Ok(placed)
}

/// Reads a state text of the teams.
///
/// `Err` with the first fault of the text and its line, or if an allocation fails.
fn read_rows(alloc: Global, tables: &Tables, text: &[u8]) -> Result<Vec<SavedTeamRow>, StateError>
    requires { AreTables tables.now }
    ensures exact { ReturnsAt (λ rows. team_views rows.items) result
        (saved_state_of (design_names (floor_in tables.now)) text.now) }
    ensures due { IfOk result
        (λ rows. MatchDesign (frame_of tables.now).limits (teams_in tables.now) (team_views rows.items)) }
{
    let reported = StateView { tables };
    read_state(alloc, &reported, text)
}

/// Reads a state text of the teams given in chunks.
///
/// `Err` with the first fault of the text, its line and the end of the text, or if an allocation
/// fails.
fn read_pieces_of(
    alloc: Global,
    tables: &Tables,
    pieces: VecDeque<Vec<u8>>,
) -> Result<Vec<SavedTeamRow>, ChunkError>
    requires { AreTables tables.now }
    ensures exact { ReturnsIn (λ rows. team_views rows.items) result
        (saved_state_of (design_names (floor_in tables.now)) (text_of_chunks pieces.items)) }
    ensures due { IfOk result
        (λ rows. MatchDesign (frame_of tables.now).limits (teams_in tables.now) (team_views rows.items)) }
    ensures end { IfErr result (λ error. HoldsEnd (text_of_chunks pieces.items) error) }
{
    let reported = StateView { tables };
    read_chunks(alloc, &reported, pieces)
}

/// Returns the tables in the state of the text.
///
/// `Err` with the first fault of the text and its line, or if an allocation fails.
fn restore_tables(alloc: Global, tables: Tables, text: &[u8]) -> Result<Tables, StateError>
    requires { AreTables tables }
    ensures tables { IfOk result AreTables }
    ensures restored { IfOk result (λ now. IsRestoredFrom (floor_in tables) text.now (floor_in now)) }
    ensures design { IfOk result (λ now. ShareDesign (floor_in tables) (floor_in now)) }
    ensures fault { IfErr result (λ error. FailsAt error (saved_state_of (design_names (floor_in tables)) text.now)) }
{
    let rows = read_rows(alloc, &tables, text)?;
    match restored_by(alloc, tables, rows) {
        Ok(now) => Ok(now),
        Err(_) => Err(StateError::Memory),
    }
}

impl<S: Seeker + Drop> Floor<S> {
    /// Brings the floor into the state of a state text of its design: each cell's working and
    /// committed place, and each team's revision, padding, session slots and undo entries. A state
    /// text of a floor of the design restores that floor. The committed design is fully legal if
    /// and only if the committed places in the text are.
    ///
    /// `Err` with the first fault, and its line, of a text that is not a state of the design; or if
    /// an allocation fails. The floor is then dropped.
    pub fn restore(self, text: &[u8]) -> Result<Floor<S>, StateError>
        ensures restored { IfOk result (λ floor. IsRestoredFrom self text.now floor) }
        ensures fault { IfErr result (λ error. FailsAt error (saved_state_of (design_names self) text.now)) }
        ensures again { (saved : FloorState) → ShareDesign self saved → IsStateText saved text.now
            → IfOk result (λ floor. floor ≡ saved) }
        ensures again_fails { (saved : FloorState) → ShareDesign self saved → IsStateText saved text.now
            → IfErr result (λ error. error ≡ Memory) }
        ensures design { IfOk result (λ floor. ShareDesign self floor) }
        ensures legal { (saved : List SavedTeam) → saved_state_of (design_names self) text.now ≡ Ok saved
            → IfOk result (λ floor. IsCommittedLegal floor ↔ IsFullyLegal self.frame (saved_design self saved)) }
    {
        saved_restores();
        restored_is_committed();
        let floor = self;
        let Floor {
            alloc,
            seeker,
            tables,
        } = floor;
        match restore_tables(alloc, tables, text) {
            Ok(now) => Ok(Floor {
                alloc,
                seeker,
                tables: now,
            }),
            Err(error) => Err(error),
        }
    }

    /// Reads a state text of the floor's design given in chunks. Each chunk is freed as soon as it
    /// has been read. `restore_saved` brings the floor into the state of the rows.
    ///
    /// `Err` with the first fault of a text that is not a state of the design, its line, and the
    /// end of the text; or if an allocation fails.
    pub fn read_state_chunks(
        &self,
        pieces: VecDeque<Vec<u8>>,
    ) -> Result<Vec<SavedTeamRow>, ChunkError>
        ensures exact { ReturnsIn (λ rows. team_views rows.items) result
            (saved_state_of (design_names self.now) (text_of_chunks pieces.items)) }
        ensures due { IfOk result (λ rows. MatchDesign self.now.frame.limits self.now.teams (team_views rows.items)) }
        ensures end { IfErr result (λ error. HoldsEnd (text_of_chunks pieces.items) error) }
    {
        read_pieces_of(self.alloc, &self.tables, pieces)
    }

    /// Brings the floor into the state of these rows, which `read_state_chunks` has read: each
    /// cell's working and committed place, and each team's revision, padding, session slots and
    /// undo entries.
    ///
    /// `Err` if an allocation fails; the floor is then dropped.
    pub fn restore_saved(self, rows: Vec<SavedTeamRow>) -> Result<Floor<S>, AllocError>
        requires due { MatchDesign self.frame.limits self.teams (team_views rows.items) }
        ensures restored { IfOk result (λ floor. floor ≡ restored_floor self (team_views rows.items)) }
        ensures design { IfOk result (λ floor. ShareDesign self floor) }
    {
        let floor = self;
        let Floor {
            alloc,
            seeker,
            tables,
        } = floor;
        let now = restored_by(alloc, tables, rows)?;
        Ok(Floor {
            alloc,
            seeker,
            tables: now,
        })
    }
}
