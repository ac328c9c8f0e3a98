//! The floor of a hub.

ghost use Rattle.std.specs.Prelude.{◌≡◌};

use crate::closing::close_session;
use crate::line_answers::{answer_line, can_change};
use crate::query_answers::look_line;
use lf_floor::Floor;
use lf_hub_clients::{Floor as HubFloor, Outcome};
use lf_legalize::Seeker;
use std::marker::Model;

/// The floor of all teams, as it answers the lines of a hub. A team has its number in the floor: the
/// fence teams in the frame's order, then the ground team. Contracts see the floor.
#[derive(Drop)]
pub struct TeamFloor<K: Seeker> {
    floor: Floor<K>,
}

impl<K: Seeker> Model for TeamFloor<K> {
    ghost use Rattle.lf_floor_model.specs.States.{FloorState};

    ghost Value = { FloorState };

    ghost view = { λ f. f.floor };
}

impl<K: Seeker + Drop> TeamFloor<K> {
    /// Makes the floor of a hub of this floor.
    pub fn new(floor: Floor<K>) -> TeamFloor<K>
        ensures { result ≡ floor }
    {
        TeamFloor { floor }
    }

    /// Returns the floor.
    pub fn floor(&self) -> &Floor<K>
        ensures { result.now ≡ self.now }
    {
        &self.floor
    }

    /// Returns the floor, for use without a hub.
    pub fn into_floor(self) -> Floor<K>
        ensures { result ≡ self }
    {
        self.floor
    }
}

impl<K: Seeker + Drop> HubFloor for TeamFloor<K> {
    ghost use Rattle.lf_rules.specs.Legalizer.{Legalizer};
    ghost use Rattle.lf_hub_floor.specs.Answers.{Answers, can_change};
    ghost use Rattle.lf_hub_floor.specs.QueryAnswers.{Shows};

    ghost answers = { Answers };

    ghost shows = { Shows };

    ghost can_change = { can_change };

    fn may_change(&self, line: &[u8]) -> bool {
        can_change(line)
    }

    fn answer(&mut self, team: u32, line: &[u8], reply: &mut Vec<u8>) -> Outcome {
        answer_line(&mut self.floor, team, line, reply)
    }

    fn look(&mut self, team: u32, line: &[u8], reply: &mut Vec<u8>) {
        look_line(&mut self.floor, team, line, reply);
    }

    fn close(
        &mut self,
        team: u32,
        session: u32,
        line: &mut Vec<u8>,
        reply: &mut Vec<u8>,
    ) -> Outcome {
        close_session(&mut self.floor, team, session, line, reply)
    }
}
