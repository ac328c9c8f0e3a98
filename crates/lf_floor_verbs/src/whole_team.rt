//! Changes of a whole team: `revert`, `undo`, `commit` and `pad`.

ghost use Rattle.std.specs.Prelude.{◌≡◌, IfOk, OnErr, OnOk, map};
ghost use Rattle.lf_rules.specs.Legalizer.{Legalizer};
ghost use Rattle.lf_cells.specs.Cells.{cells_of, committed_at, working_at};
ghost use Rattle.lf_placement.specs.Placements.{moves_applied};
ghost use Rattle.lf_floor_model.specs.Outcomes.{IsOutcome, IsOutOfMemory};
ghost use Rattle.lf_floor_model.specs.Changes.{back_to_committed, committed, padded, reverted, undone};
ghost use Rattle.lf_floor_verbs.specs.Reverting.{IsRevertMove};
ghost use Rattle.lf_floor_verbs.specs.Tables.{CanChange, EntriesFit, HasRows, IsCurrent, KeepsOtherTeams, own_team, context_in, team_in};

use crate::cell_queries::first_unplaced;
use crate::context::TeamContext;
use crate::tables::Tables;
use crate::team_legality::first_broken_cell;
use lf_cells::{CellId, CellTable};
use lf_floorplan::same_place;
use lf_proto::{Refusal, Reply};
use lf_rules::Padding;
use lf_undo::{Move, Moves};
use std::alloc::{AllocError, Global};

/// Appends the move of the cell to its committed place, if the cell is elsewhere.
///
/// `Err` if an allocation fails.
fn note_revert(cells: &CellTable, moves: &mut Moves, id: CellId) -> Result<(), AllocError>
    ensures { OnOk result (IsRevertMove (cells_of cells.now id.team) id.own moves.old moves.new) }
{
    let committed = cells.committed(id);
    if same_place(cells.working(id), committed) {
        return Ok(());
    }
    moves.push(Move::new(id.own, committed))?;
    Ok(())
}

/// The moves to their committed places of the team's cells that are elsewhere.
///
/// `Err` if an allocation fails.
fn revert_moves(alloc: Global, cells: &CellTable, number: usize) -> Result<Moves, AllocError>
    ensures { IfOk result
        (λ moves. moves_applied moves (cells_of cells.now number) ≡ map back_to_committed (cells_of cells.now number)) }
{
    let mut moves = Moves::new(alloc);
    for id in cells.cells_of(number) {
        note_revert(cells, &mut moves, *id)?;
    }
    Ok(moves)
}

impl Tables {
    /// Moves the team's cells to their committed places, unchecked.
    ///
    /// `Err` if an allocation fails; then the team is unchanged.
    pub(crate) fn revert<S>(
        &mut self,
        context: &TeamContext<'_, S>,
        session: u32,
    ) -> Result<Reply, AllocError>
        requires { CanChange context.now.number session self.old }
        ensures ok { (l : Legalizer) → IfOk result (λ reply. IsOutcome
            (reverted (context_in l context.now self.old) session (team_in context.now self.old)) reply
            (team_in context.now self.new)) }
        ensures err { (l : Legalizer) → OnErr result (IsOutOfMemory
            (reverted (context_in l context.now self.old) session (team_in context.now self.old))
            (team_in context.now self.old) (team_in context.now self.new)) }
        ensures others { KeepsOtherTeams context.now.number self.old self.new }
        ensures fit { EntriesFit context.now.number self.new }
    {
        self.placement.committed_fit();
        let moves = revert_moves(context.alloc, self.placement.cells(), context.number)?;
        self.reserve_entry(context.number)?;
        Ok(Reply::Revision(self.change_places(context.number, session, moves)))
    }

    /// Reverts the moves of the team's newest undo entry, unchecked, and removes the entry. Refuses
    /// with `NothingToUndo` if there is no entry. Does not allocate.
    pub(crate) fn undo(&mut self, number: usize, session: u32) -> Reply
        requires rows { HasRows number self.old }
        requires current { IsCurrent number session self.old }
        requires fit { EntriesFit number self.old }
        ensures team { IsOutcome (undone session (own_team number self.old)) result (own_team number self.new) }
        ensures others { KeepsOtherTeams number self.old self.new }
        ensures fit { EntriesFit number self.new }
    {
        match self.undo.pop(number) {
            Some(moves) => {
                self.placement.undo_moves(number, &moves);
                Reply::Revision(self.count_change(number, session))
            }
            None => Reply::Refused(Refusal::NothingToUndo),
        }
    }

    /// Commits the team's working places. Refuses with `Unplaced` for the first unplaced cell in
    /// loading order, then with `Illegal` for the first that breaks a rule.
    ///
    /// `Err` if an allocation fails; then the team is unchanged.
    pub(crate) fn commit<S>(
        &mut self,
        context: &TeamContext<'_, S>,
        session: u32,
    ) -> Result<Reply, AllocError>
        requires change { CanChange context.now.number session self.old }
        ensures ok { (l : Legalizer) → IfOk result (λ reply. IsOutcome
            (committed (context_in l context.now self.old) session (team_in context.now self.old)) reply
            (team_in context.now self.new)) }
        ensures err { (l : Legalizer) → OnErr result (IsOutOfMemory
            (committed (context_in l context.now self.old) session (team_in context.now self.old))
            (team_in context.now self.old) (team_in context.now self.new)) }
        ensures others { KeepsOtherTeams context.now.number self.old self.new }
        ensures fit { EntriesFit context.now.number self.new }
    {
        if let Some(cell) = first_unplaced(self.placement.cells(), context.number) {
            return Ok(Reply::Refused(Refusal::Unplaced { cell }));
        }
        if let Some(illegal) = first_broken_cell(context, self)? {
            return Ok(Reply::Refused(Refusal::Illegal {
                rule: illegal.broken.rule,
                cell: illegal.own,
                other: illegal.broken.other,
            }));
        }
        self.placement.commit_team(context.number);
        Ok(Reply::Revision(self.count_change(context.number, session)))
    }

    /// Sets the team's padding, wherever its cells are placed. Moves and tests no cell, and does
    /// not allocate.
    pub(crate) fn pad(&mut self, number: usize, session: u32, padding: Padding) -> Reply
        requires rows { HasRows number self.old }
        requires current { IsCurrent number session self.old }
        requires fit { EntriesFit number self.old }
        ensures team { IsOutcome (padded padding session (own_team number self.old)) result (own_team number self.new) }
        ensures others { KeepsOtherTeams number self.old self.new }
        ensures fit { EntriesFit number self.new }
    {
        self.set_padding(number, padding);
        Reply::Revision(self.count_change(number, session))
    }
}
