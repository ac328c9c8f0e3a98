//! Replies whose DEF text is written separately, piece by piece.

ghost use Rattle.std.specs.Prelude.{◌≡◌, IfNone, IfSome, List, ℕ, length};
ghost use Rattle.lf_rules.specs.Legalizer.{Legalizer};
ghost use Rattle.lf_proto.specs.Commands.{command_with_names, order_of};
ghost use Rattle.lf_proto.specs.declared.reply.Reply.{Reply};
ghost use Rattle.lf_proto.specs.declared.reply.Reply.TheVariants.{Def};
ghost use Rattle.lf_proto.specs.declared.request.TeamCommand.TheVariants.{Within};
ghost use Rattle.lf_proto.specs.declared.verb.Action.TheVariants.{Def as RequestDef};
ghost use Rattle.lf_floor_model.specs.Committed.{IsCommittedLegal};
ghost use Rattle.lf_floor_model.specs.Steps.{IsAnswerOf, IsTested, IsTo, Step, AllocatesNothing};
ghost use Rattle.lf_floor_model.specs.Teams.{state_of};
ghost use Rattle.lf_io.specs.Output.{PutsText};
ghost use Rattle.lf_team_def.specs.Lengths.{IsLengthOf};
ghost use Rattle.lf_floor.specs.Responses.{WantsText, WantsTeamText, RespondsWithText, def_text, reply_in, team_addressed};
ghost use Rattle.lf_floor.specs.declared.response.Response.TheVariants.{DefText};

use crate::floor::{Floor, team_with_name};
use lf_io::Output;
use lf_legalize::Seeker;
use lf_proto::{Action, Command, Refusal, Reply, Request, TeamCommand};
use lf_team_def::{team_def_length, write_team_def};

/// The reply to a request; of a DEF text it has the length alone.
#[derive(Drop)]
pub enum Response {
    /// The reply.
    Reply(Reply),
    /// The DEF text of the requested team, with its length in bytes; `Floor::write_def` writes it.
    DefText(usize),
}

/// Returns the session that requests the team's DEF text by this command. `None` if the command
/// does not request it.
fn def_session(command: &TeamCommand<&[u8]>) -> Option<u32>
    ensures is { IfSome result (λ session. order_of command.now ≡ Within session RequestDef) }
    ensures none { IfNone result (WantsTeamText (order_of command.now) → ⊥) }
{
    match command {
        TeamCommand::Within {
            session,
            action: Action::Def,
        } => Some(*session),
        _ => None,
    }
}

impl<S: Seeker + Drop> Floor<S> {
    /// Writes the DEF text of the team of that name, with its cells at their working places. Writes
    /// nothing if no team has the name. Does not allocate.
    pub fn write_def<O: Output>(&self, team: &[u8], out: &mut O)
        ensures { PutsText O.took out.old out.new (def_text self.now team.now) }
    {
        let Some(number) = team_with_name(self.tables.placement.frame(), team) else {
            return;
        };
        write_team_def(
            out,
            self.tables.placement.frame(),
            self.tables.placement.cells(),
            number,
        );
    }

    /// Returns the length of that text in bytes. `None` only if it has 2^64 bytes or more.
    fn def_length(&self, team: &[u8]) -> Option<usize>
        ensures { IsLengthOf (def_text self.now team.now) result }
    {
        let Some(number) = team_with_name(self.tables.placement.frame(), team) else {
            return Some(0);
        };
        team_def_length(
            self.tables.placement.frame(),
            self.tables.placement.cells(),
            number,
        )
    }

    /// Returns the team whose DEF text is the reply to the request. `None` if the reply is not a
    /// DEF text.
    fn def_requested<'a>(&self, request: &Request<'a>) -> Option<&'a [u8]>
        ensures requested { (l : Legalizer) → IfSome result (λ team. IsAnswerOf l self.now
            (command_with_names request.now) (Def (def_text self.now team.now)) self.now) }
        ensures team { IfSome result (λ team. team.now ≡ team_addressed (command_with_names request.now)) }
        ensures takes { IfSome result (λ team. AllocatesNothing (command_with_names request.now) → ⊥) }
        ensures untested { (reply : Reply)
            → IfSome result (λ team. IsTested (command_with_names request.now) reply → ⊥) }
        ensures none { (l : Legalizer) (text : List ℕ)
            → IfNone result (WantsText (command_with_names request.now)
            → IsAnswerOf l self.now (command_with_names request.now) (Def text) self.now → ⊥) }
    {
        let Command::To { team, order } = request else {
            return None;
        };
        let session = def_session(order)?;
        let number = team_with_name(self.tables.placement.frame(), team)?;
        self.tables.sessions.seen(number, session)?;
        Some(*team)
    }

    /// Runs one command as `step` does, but makes no DEF text. A command for a DEF text does not
    /// change the floor: its text can be written until the next command runs. The reply to it is
    /// never `OutOfMemory`, unless the text has 2^64 bytes or more.
    pub fn respond(&mut self, request: &Request) -> Response
        ensures step { (l : Legalizer) → Step l self.old (command_with_names request.now)
            (reply_in self.new (team_addressed (command_with_names request.now)) result) self.new }
        ensures length { (count : ℕ) → result ≡ DefText count
            → count ≡ length (def_text self.new (team_addressed (command_with_names request.now))) }
        ensures text { RespondsWithText self.old (command_with_names request.now) result }
        ensures others { (team : List ℕ) → ¬ IsTo team (command_with_names request.now)
            → state_of self.new team ≡ state_of self.old team }
        ensures frame { self.new.frame ≡ self.old.frame }
        ensures components { self.new.components ≡ self.old.components }
        ensures legal { IsCommittedLegal self.old → IsCommittedLegal self.new }
    {
        match self.def_requested(request) {
            None => Response::Reply(self.step(request)),
            Some(team) => match self.def_length(team) {
                Some(count) => Response::DefText(count),
                None => Response::Reply(Reply::Refused(Refusal::OutOfMemory)),
            },
        }
    }
}
