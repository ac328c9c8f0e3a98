//! From a team's command to the method of its verb.

ghost use Rattle.std.specs.Prelude.{◌≡◌, ◌≢◌, IfOk, None, OnErr, false, true};
ghost use Rattle.lf_rules.specs.Legalizer.{Legalizer};
ghost use Rattle.lf_proto.specs.declared.request.TeamCommand.TheVariants.{Within};
ghost use Rattle.lf_proto.specs.declared.verb.Action.TheVariants.{Change as Changing};
ghost use Rattle.lf_proto.specs.Commands.{order_of};
ghost use Rattle.lf_proto.specs.Verbs.{action_of, change_of};
ghost use Rattle.lf_sessions.specs.Slots.{seen_at, slots_of};
ghost use Rattle.lf_floor_model.specs.Outcomes.{IsOutcome, IsOutOfMemory};
ghost use Rattle.lf_floor_model.specs.Verbs.{is_tested, outcome_of, outcome_within, takes_memory, unless_stale};
ghost use Rattle.lf_floor_verbs.specs.Tables.{EntriesFit, HasTeamRow, KeepsOtherTeams, frame_of, context_in, team_in};

use crate::context::TeamContext;
use crate::tables::Tables;
use lf_legalize::Seeker;
use lf_proto::{Action, Change, Refusal, Reply, TeamCommand};
use std::alloc::AllocError;

impl Tables {
    /// Runs a change of an open session. Refuses with `Stale` if the session has not seen the
    /// team's revision, then with `RevisionsSpent` if the team's revision is at the limit. These
    /// come before the refusals of the change itself.
    ///
    /// `Err` if an allocation fails; then the team is unchanged.
    fn run_if_current<S: Seeker>(
        &mut self,
        context: &TeamContext<'_, S>,
        session: u32,
        seen: u32,
        change: &Change<&[u8]>,
    ) -> Result<Reply, AllocError>
        requires served { HasTeamRow context.now.number self.old }
        requires open { seen_at (slots_of self.old.sessions context.now.number) session ≡ Some seen }
        ensures ok { (l : Legalizer) → IfOk result (λ reply. IsOutcome
            (unless_stale seen (context_in l context.now self.old) session (change_of change.now)
            (team_in context.now self.old))
            reply (team_in context.now self.new)) }
        ensures err { (l : Legalizer) → OnErr result (IsOutOfMemory
            (unless_stale seen (context_in l context.now self.old) session (change_of change.now)
            (team_in context.now self.old))
            (team_in context.now self.old) (team_in context.now self.new)) }
        ensures others { KeepsOtherTeams context.now.number self.old self.new }
        ensures fit { EntriesFit context.now.number self.new }
        ensures takes { OnErr result (takes_memory (Within session (Changing (change_of change.now))) ≡ true) }
        ensures untested { (l : Legalizer) → OnErr result (is_tested (Within session (Changing (change_of change.now)))
            (unless_stale seen (context_in l context.now self.old) session (change_of change.now)
            (team_in context.now self.old)).reply ≡ false) }
    {
        let revision = self.revision(context.number);
        if seen != revision {
            return Ok(Reply::Refused(Refusal::Stale { revision }));
        }
        if revision >= self.placement.frame().limits.revisions {
            return Ok(Reply::Refused(Refusal::RevisionsSpent));
        }
        self.run_change(context, session, change)
    }

    /// Runs an action of an open session that has seen this revision.
    ///
    /// `Err` if an allocation fails; then the team is unchanged.
    fn run_action<S: Seeker>(
        &mut self,
        context: &TeamContext<'_, S>,
        session: u32,
        seen: u32,
        action: &Action<&[u8]>,
    ) -> Result<Reply, AllocError>
        requires served { HasTeamRow context.now.number self.old }
        requires open { seen_at (slots_of self.old.sessions context.now.number) session ≡ Some seen }
        ensures ok { (l : Legalizer) → IfOk result (λ reply. IsOutcome
            (outcome_within seen (context_in l context.now self.old) session (action_of action.now)
            (team_in context.now self.old))
            reply (team_in context.now self.new)) }
        ensures err { (l : Legalizer) → OnErr result (IsOutOfMemory
            (outcome_within seen (context_in l context.now self.old) session (action_of action.now)
            (team_in context.now self.old))
            (team_in context.now self.old) (team_in context.now self.new)) }
        ensures others { KeepsOtherTeams context.now.number self.old self.new }
        ensures fit { EntriesFit context.now.number self.new }
        ensures takes { OnErr result (takes_memory (Within session (action_of action.now)) ≡ true) }
        ensures untested { (l : Legalizer) → OnErr result (is_tested (Within session (action_of action.now))
            (outcome_within seen (context_in l context.now self.old) session (action_of action.now)
            (team_in context.now self.old)).reply ≡ false) }
    {
        match action {
            Action::Close => Ok(self.close(context.number, session)),
            Action::Sync => Ok(self.sync(context.number, session)),
            Action::Check => self.check(context),
            Action::Def => self.write_def(context),
            Action::Where { cell } => Ok(self.run_where(context.number, cell)),
            Action::Find { cell, target } => self.find(context, cell, target),
            Action::Change(change) => self.run_if_current(context, session, seen, change),
        }
    }

    /// Runs a command of the team of this context. Refuses with `NoSession` if it names a session
    /// that is not open; this comes before all other refusals.
    ///
    /// `Err` if an allocation fails; then the team is unchanged.
    pub fn run_command<S: Seeker>(
        &mut self,
        context: &TeamContext<'_, S>,
        command: &TeamCommand<&[u8]>,
    ) -> Result<Reply, AllocError>
        requires served { HasTeamRow context.now.number self.old }
        ensures ok { (l : Legalizer) → IfOk result (λ reply. IsOutcome
            (outcome_of (context_in l context.now self.old) (order_of command.now) (team_in context.now self.old))
            reply (team_in context.now self.new)) }
        ensures err { (l : Legalizer) → OnErr result (IsOutOfMemory
            (outcome_of (context_in l context.now self.old) (order_of command.now) (team_in context.now self.old))
            (team_in context.now self.old) (team_in context.now self.new)) }
        ensures others { KeepsOtherTeams context.now.number self.old self.new }
        ensures fit { EntriesFit context.now.number self.new }
        ensures takes { OnErr result (takes_memory (order_of command.now) ≡ true) }
        ensures untested { (l : Legalizer) → OnErr result (is_tested (order_of command.now)
            (outcome_of (context_in l context.now self.old) (order_of command.now)
            (team_in context.now self.old)).reply ≡ false) }
    {
        match command {
            TeamCommand::Open => Ok(self.open(context.number)),
            TeamCommand::Within { session, action } => {
                match self.sessions.seen(context.number, *session) {
                    Some(seen) => self.run_action(context, *session, seen, action),
                    None => Ok(Reply::Refused(Refusal::NoSession)),
                }
            }
        }
    }
}
