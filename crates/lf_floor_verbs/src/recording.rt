//! Room for a change, and its undo entry.

ghost use Rattle.std.specs.Prelude.{◌≡◌, ◌+◌, List, IfOk, OnErr, OnOk};
ghost use Rattle.lf_cells.specs.declared.cell.Cell.{Cell};
ghost use Rattle.lf_cells.specs.Cells.{moved};
ghost use Rattle.lf_undo.specs.Stacks.{HasRoomForEntry};
ghost use Rattle.lf_placement.specs.Placements.{Fits, HaveMoved, moves_applied, working_places_of};
ghost use Rattle.lf_floor_verbs.specs.Tables.{EntriesFit, HasRows, OnlyGainRoom, IsCurrent, KeepsOtherTeams, table_cells, team_after_change, own_team, revision_of};

use crate::tables::Tables;
use lf_cells::CellId;
use lf_floorplan::Place;
use lf_undo::{Move, Moves};
use std::alloc::{AllocError, Global};

impl Tables {
    /// Reserves memory for one more undo entry of the team.
    ///
    /// `Err` if an allocation fails.
    pub(crate) fn reserve_entry(&mut self, number: usize) -> Result<(), AllocError>
        requires { HasRows number self.old }
        ensures room { OnOk result (HasRoomForEntry self.new.undo number) }
        ensures grown { OnlyGainRoom self.old self.new }
        ensures placement { self.new.placement ≡ self.old.placement }
    {
        self.undo.reserve(number)
    }

    /// Reserves memory for one more undo entry of the team, and for its cells at the places that
    /// the moves lead to.
    ///
    /// `Err` if an allocation fails.
    pub(crate) fn reserve_moves(
        &mut self,
        alloc: Global,
        number: usize,
        moves: &[Move],
    ) -> Result<(), AllocError>
        requires { HasRows number self.old }
        ensures room { OnOk result (HasRoomForEntry self.new.undo number) }
        ensures fits { OnOk result (Fits self.new.placement number
            (working_places_of (moves_applied moves.now (table_cells number self.old)))) }
        ensures grown { OnlyGainRoom self.old self.new }
    {
        self.reserve_entry(number)?;
        self.placement.reserve(alloc, number, moves)
    }

    /// Adds the moves of a change as the team's newest undo entry, for which there is room. Counts
    /// the change and returns the new revision.
    pub(crate) fn push_undo(&mut self, number: usize, session: u32, moves: Moves) -> u32
        requires rows { HasRows number self.old }
        requires current { IsCurrent number session self.old }
        requires room { HasRoomForEntry self.old.undo number }
        ensures team { (before : List Cell) → HaveMoved before moves (table_cells number self.old) →
            own_team number self.new ≡ team_after_change number session before (table_cells number self.old) self.old }
        ensures revision { result ≡ revision_of self.old number + 1 }
        ensures placement { self.new.placement ≡ self.old.placement }
        ensures others { KeepsOtherTeams number self.old self.new }
    {
        match self.undo.push(number, moves) {
            Ok(()) => self.count_change(number, session),
            Err(_) => unreachable!(),
        }
    }

    /// Makes the moves as one change of the session that can be undone, and returns the new
    /// revision. Does not allocate.
    pub(crate) fn change_places(&mut self, number: usize, session: u32, moves: Moves) -> u32
        requires rows { HasRows number self.old }
        requires current { IsCurrent number session self.old }
        requires room { HasRoomForEntry self.old.undo number }
        requires fits { Fits self.old.placement number
            (working_places_of (moves_applied moves (table_cells number self.old))) }
        ensures team { own_team number self.new
            ≡ team_after_change number session (table_cells number self.old)
            (moves_applied moves (table_cells number self.old)) self.old }
        ensures revision { result ≡ revision_of self.old number + 1 }
        ensures others { KeepsOtherTeams number self.old self.new }
        ensures fit { EntriesFit number self.old → EntriesFit number self.new }
    {
        self.placement.boxes_match_places();
        let mut moves = moves;
        self.placement.apply(number, &mut moves, 0);
        self.push_undo(number, session, moves)
    }

    /// Moves one cell of the team as a change of the session that can be undone, and returns the
    /// new revision.
    ///
    /// `Err` if an allocation fails; then no team has changed.
    pub(crate) fn change_place(
        &mut self,
        alloc: Global,
        session: u32,
        id: CellId,
        place: Option<Place>,
    ) -> Result<u32, AllocError>
        requires rows { HasRows id.team self.old }
        requires current { IsCurrent id.team session self.old }
        ensures ok { OnOk result
            (own_team id.team self.new ≡ team_after_change id.team session (table_cells id.team self.old)
            (moved (table_cells id.team self.old) id.own place) self.old) }
        ensures revision { IfOk result (λ revision. revision ≡ revision_of self.old id.team + 1) }
        ensures err { OnErr result (own_team id.team self.new ≡ own_team id.team self.old) }
        ensures others { KeepsOtherTeams id.team self.old self.new }
        ensures fit { EntriesFit id.team self.old → EntriesFit id.team self.new }
    {
        let number = id.team as usize;
        let mut moves = Moves::new(alloc);
        moves.push(Move::new(id.own, place))?;
        self.reserve_moves(alloc, number, moves.as_slice())?;
        Ok(self.change_places(number, session, moves))
    }
}
