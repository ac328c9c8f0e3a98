//! The answer to a line of a query socket, which changes nothing.

ghost use Rattle.std.specs.Prelude.{◌≡◌, ◌≤◌, [], ℕ, MatchOption, Some, slice_get, true, vec_capacity};
ghost use Rattle.lf_rules.specs.Legalizer.{Legalizer};
ghost use Rattle.lf_proto.specs.Commands.{order_of};
ghost use Rattle.lf_proto.specs.Verbs.{action_of};
ghost use Rattle.lf_proto.specs.declared.request.Command.TheVariants.{To};
ghost use Rattle.lf_proto.specs.declared.request.TeamCommand.TheVariants.{Within};
ghost use Rattle.lf_floor_model.specs.States.{FloorState, TeamState};
ghost use Rattle.lf_floor_model.specs.Teams.{team_number};
ghost use Rattle.lf_server.specs.Exchanges.{StepsOn};
ghost use Rattle.lf_hub_floor.specs.Answers.{is_query_action};
ghost use Rattle.lf_hub_floor.specs.QueryAnswers.{ShowsLine, ShowsOrder};
ghost use Rattle.lf_hub_floor.specs.QuerySessions.{HasNoFreeSlot, OpensSession, session_opened};

use crate::line_answers::{execute, is_own};
use crate::reply_texts::put;
use lf_floor::Floor;
use lf_hub_lines::ended_line;
use lf_legalize::Seeker;
use lf_proto::{Action, Command, Reply, TeamCommand};
use lf_rules::legalizer_exists;
use lf_server::{request_of_line, write_short_reply};

/// Returns the session that the reply says was opened.
fn session_opened(reply: &Reply) -> Option<u32>
    ensures { result ≡ session_opened reply.now }
{
    match reply {
        Reply::Opened { session, .. } => Some(*session),
        _ => None,
    }
}

/// Opens a session of the team of this name, for a query. `None` if no slot is free, or if there is
/// no such team; then the floor is as it was.
fn open_session<K: Seeker + Drop>(floor: &mut Floor<K>, team: &[u8]) -> Option<u32>
    ensures { MatchOption result (HasNoFreeSlot floor.old team.now floor.new)
        (λ session. OpensSession floor.old team.now session floor.new) }
{
    legalizer_exists();
    let request = Command::To {
        team,
        order: TeamCommand::Open,
    };
    let reply = floor.step(&request);
    session_opened(&reply)
}

/// Closes the session after the query. The floor is then as it was before it was opened.
fn close_session<K: Seeker + Drop>(floor: &mut Floor<K>, team: &[u8], session: u32)
    ensures { (before : FloorState) → OpensSession before team.now session floor.old → floor.new ≡ before }
{
    legalizer_exists();
    let request = Command::To {
        team,
        order: TeamCommand::Within {
            session,
            action: Action::Close,
        },
    };
    let _closed = floor.step(&request);
}

/// Executes an action in a session of the team, and writes the text of the reply.
fn execute_within<K: Seeker + Drop>(
    floor: &mut Floor<K>,
    team: &[u8],
    session: u32,
    action: Action<&[u8]>,
    text: &mut Vec<u8>,
) -> Reply
    requires empty { text.old.items ≡ [] }
    requires room { 4096 ≤ vec_capacity text.old }
    ensures steps { (l : Legalizer)
        → StepsOn l floor.old (To team.now (Within session (action_of action.entry))) result text.new.items floor.new }
    ensures capacity { vec_capacity text.old ≤ vec_capacity text.new }
{
    let request = Command::To {
        team,
        order: TeamCommand::Within { session, action },
    };
    execute(floor, &request, text)
}

/// Answers a query of the team in a session that is opened for it, or in session 0 if no slot is
/// free.
fn look_query<K: Seeker + Drop>(
    floor: &mut Floor<K>,
    team: &[u8],
    query: Action<&[u8]>,
    text: &mut Vec<u8>,
)
    requires query { is_query_action (action_of query) ≡ true }
    requires empty { text.old.items ≡ [] }
    requires room { 4096 ≤ vec_capacity text.old }
    ensures shows { (l : Legalizer) (session : ℕ)
        → ShowsOrder l floor.old team.now (Within session (action_of query.entry)) text.new.items }
    ensures unchanged { floor.new ≡ floor.old }
    ensures capacity { vec_capacity text.old ≤ vec_capacity text.new }
{
    legalizer_exists();
    floor.teams_match_frame();
    match open_session(floor, team) {
        Some(session) => {
            let _reply = execute_within(floor, team, session, query, text);
            close_session(floor, team, session);
        }
        None => {
            let _reply = execute_within(floor, team, 0, query, text);
        }
    }
}

/// Returns the revision of the team of this name; 0 if there is no such team.
fn revision_of<K: Seeker + Drop>(floor: &Floor<K>, team: &[u8]) -> u32
    ensures { (number : ℕ) (s : TeamState) → team_number floor.now.frame team.now ≡ Some number
        → slice_get floor.now.teams number ≡ Some s → result ≡ s.revision }
{
    match floor.team_number(team) {
        Some(number) => floor.revision_of(number),
        None => 0,
    }
}

/// Answers an action of a session of the team.
fn look_within<K: Seeker + Drop>(
    floor: &mut Floor<K>,
    team: &[u8],
    action: Action<&[u8]>,
    text: &mut Vec<u8>,
)
    requires empty { text.old.items ≡ [] }
    requires room { 4096 ≤ vec_capacity text.old }
    ensures shows { (l : Legalizer) (session : ℕ)
        → ShowsOrder l floor.old team.now (Within session (action_of action.entry)) text.new.items }
    ensures unchanged { floor.new ≡ floor.old }
    ensures capacity { vec_capacity text.old ≤ vec_capacity text.new }
{
    match action {
        Action::Close => put(text, b"ok\n"),
        Action::Sync => {
            let revision = revision_of(floor, team);
            write_short_reply(text, floor, team, &Reply::Revision(revision));
        }
        Action::Check => look_query(floor, team, Action::Check, text),
        Action::Def => look_query(floor, team, Action::Def, text),
        Action::Where { cell } => look_query(floor, team, Action::Where { cell }, text),
        Action::Find { cell, target } => {
            look_query(floor, team, Action::Find { cell, target }, text);
        }
        Action::Change(_) => put(text, b"no 15 QueriesOnly\n"),
    }
}

/// Answers a command of the socket's team.
fn look_order<K: Seeker + Drop>(
    floor: &mut Floor<K>,
    team: &[u8],
    order: TeamCommand<&[u8]>,
    text: &mut Vec<u8>,
)
    requires empty { text.old.items ≡ [] }
    requires room { 4096 ≤ vec_capacity text.old }
    ensures shows { (l : Legalizer) → ShowsOrder l floor.old team.now (order_of order.entry) text.new.items }
    ensures unchanged { floor.new ≡ floor.old }
    ensures capacity { vec_capacity text.old ≤ vec_capacity text.new }
{
    match order {
        TeamCommand::Open => {
            let revision = revision_of(floor, team);
            let reply = Reply::Opened {
                session: 0,
                revision,
            };
            write_short_reply(text, floor, team, &reply);
        }
        TeamCommand::Within { action, .. } => look_within(floor, team, action, text),
    }
}

/// Answers a line by the query socket of the team of this number, and writes the reply into an empty
/// buffer. The floor is as it was.
pub(crate) fn look_line<K: Seeker + Drop>(
    floor: &mut Floor<K>,
    team: u32,
    line: &[u8],
    text: &mut Vec<u8>,
)
    requires empty { text.old.items ≡ [] }
    requires room { 4096 ≤ vec_capacity text.old }
    ensures shows { (l : Legalizer) → ShowsLine l team line.now floor.old text.new.items }
    ensures unchanged { floor.new ≡ floor.old }
    ensures capacity { vec_capacity text.old ≤ vec_capacity text.new }
{
    let Some(request) = request_of_line(ended_line(line)) else {
        put(text, b"no 1 BadRequest\n");
        return;
    };
    if !is_own(floor, team, &request) {
        put(text, b"no 2 NoTeam\n");
        return;
    }
    match request {
        Command::Bye => put(text, b"ok\n"),
        Command::To { team, order } => look_order(floor, team, order, text),
    }
}
