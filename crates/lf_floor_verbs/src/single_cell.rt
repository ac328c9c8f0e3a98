//! Dispatch of changes to their methods, and the changes of one cell (`place`, `legalize` and
//! `unplace`).

ghost use Rattle.std.specs.Prelude.{◌≡◌, IfOk, OnErr, false, true};
ghost use Rattle.lf_rules.specs.Legalizer.{Legalizer};
ghost use Rattle.lf_proto.specs.declared.request.TeamCommand.TheVariants.{Within};
ghost use Rattle.lf_proto.specs.declared.verb.Action.TheVariants.{Change as Changing};
ghost use Rattle.lf_proto.specs.declared.verb.Change.TheVariants.{Place as PlaceAt};
ghost use Rattle.lf_proto.specs.Verbs.{change_of};
ghost use Rattle.lf_floor_model.specs.Outcomes.{IsOutcome, IsOutOfMemory};
ghost use Rattle.lf_floor_model.specs.Changes.{legalized, outcome_of_change, placed, unplaced};
ghost use Rattle.lf_floor_model.specs.Verbs.{is_tested, takes_memory};
ghost use Rattle.lf_floor_verbs.specs.Tables.{CanChange, EntriesFit, KeepsOtherTeams, frame_of, context_in, team_in};

use crate::cell_queries::{best_place, broken_at};
use crate::context::TeamContext;
use crate::tables::Tables;
use lf_floorplan::Place;
use lf_legalize::Seeker;
use lf_proto::{Change, Refusal, Reply};
use lf_units::Point;
use std::alloc::AllocError;

impl Tables {
    /// Makes a change.
    ///
    /// `Err` if an allocation fails; then the team is unchanged.
    pub(crate) fn run_change<S: Seeker>(
        &mut self,
        context: &TeamContext<'_, S>,
        session: u32,
        change: &Change<&[u8]>,
    ) -> Result<Reply, AllocError>
        requires change { CanChange context.now.number session self.old }
        ensures ok { (l : Legalizer) → IfOk result (λ reply. IsOutcome
            (outcome_of_change (context_in l context.now self.old) session (change_of change.now)
            (team_in context.now self.old))
            reply (team_in context.now self.new)) }
        ensures err { (l : Legalizer) → OnErr result (IsOutOfMemory
            (outcome_of_change (context_in l context.now self.old) session (change_of change.now)
            (team_in context.now self.old))
            (team_in context.now self.old) (team_in context.now self.new)) }
        ensures others { KeepsOtherTeams context.now.number self.old self.new }
        ensures fit { EntriesFit context.now.number self.new }
        ensures takes { OnErr result (takes_memory (Within session (Changing (change_of change.now))) ≡ true) }
        ensures untested { (l : Legalizer) → OnErr result (is_tested (Within session (Changing (change_of change.now)))
            (outcome_of_change (context_in l context.now self.old) session (change_of change.now)
            (team_in context.now self.old)).reply ≡ false) }
    {
        match change {
            Change::Place { cell, place } => self.place(context, session, cell, place),
            Change::Legalize { cell, target } => self.legalize(context, session, cell, target),
            Change::Tidy => self.tidy(context, session),
            Change::Unplace { cell } => self.unplace(context, session, cell),
            Change::Swap { first, second } => self.swap(context, session, first, second),
            Change::Undo => Ok(self.undo(context.number, session)),
            Change::Commit => self.commit(context, session),
            Change::Revert => self.revert(context, session),
            Change::Pad { padding } => Ok(self.pad(context.number, session, *padding)),
        }
    }

    /// Moves a cell to a place. Refuses with `NoCell` if the team has no cell of that name, then
    /// with `Illegal` if the cell breaks a rule there.
    ///
    /// `Err` if an allocation fails; then the team is unchanged.
    #[tactic(auto, unfolding(lf_floor_model::specs::Changes::placed))]
    pub(crate) fn place<S>(
        &mut self,
        context: &TeamContext<'_, S>,
        session: u32,
        name: &[u8],
        place: &Place,
    ) -> Result<Reply, AllocError>
        requires change { CanChange context.now.number session self.old }
        ensures ok { (l : Legalizer) → IfOk result (λ reply. IsOutcome
            (placed (context_in l context.now self.old) session name.now place.now (team_in context.now self.old))
            reply (team_in context.now self.new)) }
        ensures err { (l : Legalizer) → OnErr result (IsOutOfMemory
            (placed (context_in l context.now self.old) session name.now place.now (team_in context.now self.old))
            (team_in context.now self.old) (team_in context.now self.new)) }
        ensures untested { (l : Legalizer)
            → OnErr result (is_tested (Within session (Changing (PlaceAt name.now place.now)))
            (placed (context_in l context.now self.old) session name.now place.now
            (team_in context.now self.old)).reply ≡ false) }
        ensures others { KeepsOtherTeams context.now.number self.old self.new }
        ensures fit { EntriesFit context.now.number self.new }
    {
        let Some(id) = self.cell_named(context.number, name) else {
            return Ok(Reply::Refused(Refusal::NoCell));
        };
        if let Some(broken) = broken_at(&self.placement, id, place, context.padding) {
            return Ok(Reply::Refused(Refusal::Illegal {
                rule: broken.rule,
                cell: id.own,
                other: broken.other,
            }));
        }
        let revision = self.change_place(context.alloc, session, id, Some(*place))?;
        Ok(Reply::Revision(revision))
    }

    /// Moves a cell to its best place for a target. Refuses with `NoCell` if the team has no cell
    /// of that name, then with `NoPlace` if no place is legal for it.
    ///
    /// `Err` if an allocation fails; then the team is unchanged.
    #[tactic(auto, unfolding(lf_floor_model::specs::Changes::legalized))]
    pub(crate) fn legalize<S: Seeker>(
        &mut self,
        context: &TeamContext<'_, S>,
        session: u32,
        name: &[u8],
        target: &Point,
    ) -> Result<Reply, AllocError>
        requires change { CanChange context.now.number session self.old }
        ensures ok { (l : Legalizer) → IfOk result (λ reply. IsOutcome
            (legalized (context_in l context.now self.old) session name.now target.now (team_in context.now self.old))
            reply (team_in context.now self.new)) }
        ensures err { (l : Legalizer) → OnErr result (IsOutOfMemory
            (legalized (context_in l context.now self.old) session name.now target.now (team_in context.now self.old))
            (team_in context.now self.old) (team_in context.now self.new)) }
        ensures others { KeepsOtherTeams context.now.number self.old self.new }
        ensures fit { EntriesFit context.now.number self.new }
    {
        let Some(id) = self.cell_named(context.number, name) else {
            return Ok(Reply::Refused(Refusal::NoCell));
        };
        let Some(place) = best_place(context, &self.placement, id, target)? else {
            return Ok(Reply::Refused(Refusal::NoPlace { cell: id.own }));
        };
        let revision = self.change_place(context.alloc, session, id, Some(place))?;
        Ok(Reply::Legalized { revision, place })
    }

    /// Unplaces a cell. Refuses with `NoCell` if the team has no cell of that name, then with
    /// `Unplaced` if the cell has no place.
    ///
    /// `Err` if an allocation fails; then the team is unchanged.
    #[tactic(auto, unfolding(lf_floor_model::specs::Changes::unplaced))]
    pub(crate) fn unplace<S>(
        &mut self,
        context: &TeamContext<'_, S>,
        session: u32,
        name: &[u8],
    ) -> Result<Reply, AllocError>
        requires { CanChange context.now.number session self.old }
        ensures ok { IfOk result (λ reply. IsOutcome
            (unplaced (frame_of self.old).limits session name.now (team_in context.now self.old))
            reply (team_in context.now self.new)) }
        ensures err { OnErr result (IsOutOfMemory
            (unplaced (frame_of self.old).limits session name.now (team_in context.now self.old))
            (team_in context.now self.old) (team_in context.now self.new)) }
        ensures others { KeepsOtherTeams context.now.number self.old self.new }
        ensures fit { EntriesFit context.now.number self.new }
    {
        let Some(id) = self.cell_named(context.number, name) else {
            return Ok(Reply::Refused(Refusal::NoCell));
        };
        if self.working(id).is_none() {
            return Ok(Reply::Refused(Refusal::Unplaced { cell: id.own }));
        }
        let revision = self.change_place(context.alloc, session, id, None)?;
        Ok(Reply::Revision(revision))
    }
}
