//! Sessions: what `open`, `close` and `sync` do.

ghost use Rattle.std.specs.Prelude.{◌≡◌, ◌≢◌, None};
ghost use Rattle.lf_sessions.specs.Slots.{seen_at, slots_of};
ghost use Rattle.lf_floor_model.specs.Outcomes.{IsOutcome};
ghost use Rattle.lf_floor_model.specs.Sessions.{closed, opened, synced};
ghost use Rattle.lf_floor_verbs.specs.Tables.{EntriesFit, KeepsOtherTeams, own_team};

use crate::tables::Tables;
use lf_proto::{Refusal, Reply};

impl Tables {
    /// Takes the team's least free session slot. Refuses with `SessionsFull` if no slot is free.
    #[tactic(auto, unfolding(lf_floor_model::specs::Sessions::opened))]
    pub(crate) fn open(&mut self, number: usize) -> Reply
        ensures team { IsOutcome (opened (own_team number self.old)) result (own_team number self.new) }
        ensures others { KeepsOtherTeams number self.old self.new }
        ensures fit { EntriesFit number self.old → EntriesFit number self.new }
    {
        let revision = self.revision(number);
        match self.sessions.take_slot(number, revision) {
            Some(session) => Reply::Opened { session, revision },
            None => Reply::Refused(Refusal::SessionsFull),
        }
    }

    /// Frees the slot of an open session of the team.
    #[tactic(auto, unfolding(lf_floor_model::specs::Sessions::closed))]
    pub(crate) fn close(&mut self, number: usize, session: u32) -> Reply
        requires { seen_at (slots_of self.old.sessions number) session ≢ None }
        ensures team { IsOutcome (closed session (own_team number self.old)) result (own_team number self.new) }
        ensures others { KeepsOtherTeams number self.old self.new }
        ensures fit { EntriesFit number self.old → EntriesFit number self.new }
    {
        self.sessions.free_slot(number, session);
        Reply::Done
    }

    /// Records that an open session of the team has seen the present revision, and returns that
    /// revision.
    #[tactic(auto, unfolding(lf_floor_model::specs::Sessions::synced))]
    pub(crate) fn sync(&mut self, number: usize, session: u32) -> Reply
        requires { seen_at (slots_of self.old.sessions number) session ≢ None }
        ensures team { IsOutcome (synced session (own_team number self.old)) result (own_team number self.new) }
        ensures others { KeepsOtherTeams number self.old self.new }
        ensures fit { EntriesFit number self.old → EntriesFit number self.new }
    {
        let revision = self.revision(number);
        self.sessions.set_seen(number, session, revision);
        Reply::Revision(revision)
    }
}
