//! The state of all teams, in one table of each kind.

ghost use Rattle.std.specs.Prelude.{◌≡◌, ◌+◌, IfOk, IfSome, map, option_map, replicate};
ghost use Rattle.lf_cells.specs.Cells.{cell_named, id_in, working_at};
ghost use Rattle.lf_floor_verbs.specs.Tables.{AreInitial, CountsChange, HasRows, IsCurrent, SetsPadding, table_cells, padding_of, revision_of};

use lf_cells::CellId;
use lf_floorplan::{Loaded, Place};
use lf_placement::Placement;
use lf_rules::Padding;
use lf_sessions::SessionTable;
use lf_undo::UndoStore;
use std::alloc::{AllocError, Global};

/// The frame with the cells of all teams, and their undo entries, session slots, revisions and
/// paddings. Each table has a row for each team of the frame: the fence teams in the frame's order,
/// then the ground team.
#[derive(Drop)]
pub struct Tables {
    /// The frame, and the places of the cells of all teams.
    pub placement: Placement,
    /// The undo entries of each team.
    pub undo: UndoStore,
    /// The session slots of each team, each free or with the revision that its session has seen.
    pub sessions: SessionTable,
    /// The number of changes that each team has made.
    pub revisions: Vec<u32>,
    /// The least distance between the cells of each team, in core sites.
    pub paddings: Vec<Padding>,
}

/// Returns a padding of 0 for each of `teams` teams.
///
/// `Err` if an allocation fails.
fn unpadded(alloc: Global, teams: usize) -> Result<Vec<Padding>, AllocError>
    ensures { IfOk result (λ paddings. map (λ padding. padding.sites) paddings.items ≡ replicate teams 0) }
{
    vec![in alloc; Padding::none(); teams]
}

impl Tables {
    /// The tables of a design as loaded. There is no change, undo entry or open session, and no
    /// team has a padding.
    ///
    /// `Err` if an allocation fails; the design is then dropped.
    pub fn initial(alloc: Global, loaded: Loaded) -> Result<Tables, AllocError>
        ensures { IfOk result (λ tables. AreInitial loaded tables) }
    {
        let teams = loaded.frame.teams.len() + 1;
        let undo = UndoStore::build(alloc, teams, loaded.frame.limits.undo as usize)?;
        let sessions = SessionTable::build(alloc, teams, loaded.frame.limits.sessions)?;
        let revisions = vec![in alloc; 0; teams]?;
        let paddings = unpadded(alloc, teams)?;
        let placement = Placement::build(alloc, loaded)?;
        Ok(Tables {
            placement,
            undo,
            sessions,
            revisions,
            paddings,
        })
    }

    /// Returns the team's cell of that name. `None` for a cell of another team and for a name that
    /// no cell has.
    pub(crate) fn cell_named(&self, number: usize, name: &[u8]) -> Option<CellId>
        ensures own { option_map (λ id. id.own) result ≡ cell_named name.now (table_cells number self.now) }
        ensures team { IfSome result (λ id. id.team ≡ number) }
    {
        self.placement.cells().find_own(number, name)
    }

    /// Returns the team's cell at that position. `None` if the team has no such cell.
    pub fn cell_at(&self, number: usize, own: usize) -> Option<CellId>
        ensures { result ≡ id_in (table_cells number self.now) number own }
    {
        self.placement.cells().cell_of(number, own)
    }

    /// Returns the working place of a cell. `None` if it is unplaced or there is no such cell.
    pub fn working(&self, id: CellId) -> Option<Place>
        ensures { result ≡ working_at (table_cells id.team self.now) id.own }
    {
        self.placement.cells().working(id)
    }

    /// Returns the number of changes that the team has made.
    pub fn revision(&self, number: usize) -> u32
        ensures { result ≡ revision_of self.now number }
    {
        match self.revisions.get(number) {
            Some(revision) => *revision,
            None => 0,
        }
    }

    /// Returns the least distance between the team's cells, in core sites.
    pub fn padding(&self, number: usize) -> Padding
        ensures { result.sites ≡ padding_of self.now number }
    {
        match self.paddings.get(number) {
            Some(padding) => *padding,
            None => Padding::none(),
        }
    }

    /// Sets the team's padding.
    pub fn set_padding(&mut self, number: usize, padding: Padding)
        requires { HasRows number self.old }
        ensures { SetsPadding number padding self.old self.new }
    {
        self.paddings[number] = padding;
    }

    /// Counts one more change of the team, records that the session has seen it, and returns the
    /// new revision.
    pub(crate) fn count_change(&mut self, number: usize, session: u32) -> u32
        requires rows { HasRows number self.old }
        requires current { IsCurrent number session self.old }
        ensures revision { result ≡ revision_of self.old number + 1 }
        ensures tables { CountsChange number session self.old self.new }
    {
        let revision = self.revision(number) + 1;
        self.revisions[number] = revision;
        self.sessions.set_seen(number, session, revision);
        revision
    }
}
