//! Queries, which do not change the team: `where`, `check`, `def` and `find`.

ghost use Rattle.std.specs.Prelude.{IfOk, OnErr};
ghost use Rattle.lf_rules.specs.Legalizer.{Legalizer};
ghost use Rattle.lf_floor_model.specs.Teams.{IsTeamOf};
ghost use Rattle.lf_floor_verbs.specs.Tables.{frame_of, own_team, context_in, team_in};
ghost use Rattle.lf_floor_model.specs.Outcomes.{IsOutcome, IsOutOfMemory};
ghost use Rattle.lf_floor_model.specs.Queries.{checked, found, located, written};

use crate::cell_queries::best_place;
use crate::context::TeamContext;
use crate::report::report_text;
use crate::tables::Tables;
use lf_legalize::Seeker;
use lf_proto::{Refusal, Reply, Text};
use lf_team_def::team_def;
use lf_units::Point;
use std::alloc::AllocError;

impl Tables {
    /// Returns the working place of a cell. Refuses with `NoCell` if the team has no cell of that
    /// name, then with `Unplaced` if the cell has no place.
    #[tactic(auto, unfolding(lf_floor_model::specs::Queries::located))]
    pub(crate) fn run_where(&self, number: usize, name: &[u8]) -> Reply
        ensures { IsOutcome (located name.now (own_team number self.now)) result (own_team number self.now) }
    {
        let Some(id) = self.cell_named(number, name) else {
            return Reply::Refused(Refusal::NoCell);
        };
        match self.working(id) {
            Some(place) => Reply::At(place),
            None => Reply::Refused(Refusal::Unplaced { cell: id.own }),
        }
    }

    /// Returns the report of the team's cells at their working places.
    ///
    /// `Err` if an allocation fails.
    #[tactic(auto, unfolding(lf_floor_model::specs::Queries::checked))]
    pub(crate) fn check<S>(&self, context: &TeamContext<'_, S>) -> Result<Reply, AllocError>
        requires team { IsTeamOf (frame_of self.now) (team_in context.now self.now) }
        ensures ok { (l : Legalizer) → IfOk result (λ reply. IsOutcome
            (checked (context_in l context.now self.now) (team_in context.now self.now))
            reply (team_in context.now self.now)) }
        ensures err { (l : Legalizer) → OnErr result (IsOutOfMemory
            (checked (context_in l context.now self.now) (team_in context.now self.now))
            (team_in context.now self.now) (team_in context.now self.now)) }
    {
        let text = report_text(context, self)?;
        Ok(Reply::Report(text))
    }

    /// Returns the team's DEF text with its cells at their working places.
    ///
    /// `Err` if an allocation fails.
    #[tactic(auto, unfolding(lf_floor_model::specs::Queries::written))]
    pub(crate) fn write_def<S>(&self, context: &TeamContext<'_, S>) -> Result<Reply, AllocError>
        ensures ok { (l : Legalizer) → IfOk result (λ reply. IsOutcome
            (written (context_in l context.now self.now) (team_in context.now self.now))
            reply (team_in context.now self.now)) }
        ensures err { (l : Legalizer) → OnErr result (IsOutOfMemory
            (written (context_in l context.now self.now) (team_in context.now self.now))
            (team_in context.now self.now) (team_in context.now self.now)) }
    {
        let text = team_def(
            context.alloc,
            self.placement.frame(),
            self.placement.cells(),
            context.number,
        )?;
        Ok(Reply::Def(Text::from_bytes(text)))
    }

    /// Returns the best place of a cell. Refuses with `NoCell` if the team has no cell of that
    /// name, then with `NoPlace` if no place is legal for it.
    ///
    /// `Err` if an allocation fails.
    #[tactic(auto, unfolding(lf_floor_model::specs::Queries::found))]
    pub(crate) fn find<S: Seeker>(
        &self,
        context: &TeamContext<'_, S>,
        name: &[u8],
        target: &Point,
    ) -> Result<Reply, AllocError>
        ensures ok { (l : Legalizer) → IfOk result (λ reply. IsOutcome
            (found (context_in l context.now self.now) name.now target.now (team_in context.now self.now))
            reply (team_in context.now self.now)) }
        ensures err { (l : Legalizer) → OnErr result (IsOutOfMemory
            (found (context_in l context.now self.now) name.now target.now (team_in context.now self.now))
            (team_in context.now self.now) (team_in context.now self.now)) }
    {
        let Some(id) = self.cell_named(context.number, name) else {
            return Ok(Reply::Refused(Refusal::NoCell));
        };
        match best_place(context, &self.placement, id, target)? {
            Some(place) => Ok(Reply::At(place)),
            None => Ok(Reply::Refused(Refusal::NoPlace { cell: id.own })),
        }
    }
}
