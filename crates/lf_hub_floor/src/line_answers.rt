//! The answer to a line of a team's socket.

ghost use Rattle.std.specs.Prelude.{◌≡◌, ◌≤◌, [], None, false, length, option_map, true, vec_capacity};
ghost use Rattle.lf_rules.specs.Legalizer.{Legalizer};
ghost use Rattle.lf_proto.specs.Commands.{command_with_names};
ghost use Rattle.lf_floor.specs.Responses.{team_addressed};
ghost use Rattle.lf_floor_model.specs.Journals.{is_query};
ghost use Rattle.lf_floor_model.specs.States.{FloorState};
ghost use Rattle.lf_hub_clients.specs.Turns.{is_change};
ghost use Rattle.lf_server.specs.Connections.{KeepsDesign};
ghost use Rattle.lf_server.specs.Exchanges.{StepsOn};
ghost use Rattle.lf_hub_floor.specs.Answers.{AnswersLine, AnswersNoRequest, AnswersOwn, can_change, gives_label, is_own, is_query_line, name_of_team, request_on};

use crate::outcomes::{is_query, outcome_of};
use crate::reply_texts::{put, write_reply};
use lf_floor::{Floor, team_name};
use lf_hub_clients::Outcome;
use lf_hub_lines::{HubLine, ended_line, hub_line_of};
use lf_legalize::Seeker;
use lf_proto::{Command, Refusal, Reply, Request};
use lf_rules::legalizer_exists;
use lf_server::request_of_line;

/// Returns whether the line gives its connection a label.
fn gives_label(line: Option<&[u8]>) -> bool
    ensures { result ≡ gives_label (option_map (λ bytes. bytes.now) line.entry) }
{
    let Some(bytes) = line else {
        return false;
    };
    match hub_line_of(bytes) {
        Some(HubLine::Label { .. }) => true,
        Some(HubLine::Units) => false,
        Some(HubLine::Wait { .. }) => false,
        None => false,
    }
}

/// Returns whether the command is `bye`, or one of the team of this number.
pub(crate) fn is_own<K: Seeker + Drop>(floor: &Floor<K>, team: u32, request: &Request) -> bool
    ensures { result ≡ is_own (name_of_team floor.now.frame team) (command_with_names request.now) }
{
    let Command::To { team: name, .. } = request else {
        return true;
    };
    match team_name(floor.placement().frame(), team as usize) {
        Some(own) => *name == own,
        None => false,
    }
}

/// Returns the team that a command names, or no bytes for `bye`.
fn team_of<'a>(request: &Request<'a>) -> &'a [u8]
    ensures { result.now ≡ team_addressed (command_with_names request.now) }
{
    match request {
        Command::To { team, .. } => team,
        Command::Bye => b"",
    }
}

/// Returns whether the line may be an accepted change.
pub(crate) fn can_change(line: &[u8]) -> bool
    ensures { result ≡ can_change line.now }
{
    match request_of_line(ended_line(line)) {
        None => false,
        Some(request) => !is_query(&request),
    }
}

/// Executes a command, and writes the text of the reply into an empty buffer. Returns the reply, which
/// is `OutOfMemory` if its text has no memory.
#[tactic(auto, using(crate::proofs::Executing::short_steps))]
pub(crate) fn execute<K: Seeker + Drop>(
    floor: &mut Floor<K>,
    request: &Request,
    text: &mut Vec<u8>,
) -> Reply
    requires empty { text.old.items ≡ [] }
    requires room { 4096 ≤ vec_capacity text.old }
    ensures steps { (l : Legalizer)
        → StepsOn l floor.old (command_with_names request.now) result text.new.items floor.new }
    ensures stays { KeepsDesign floor.old floor.new }
    ensures short { is_query (command_with_names request.now) ≡ false → length text.new.items ≤ 4096 }
    ensures capacity { vec_capacity text.old ≤ vec_capacity text.new }
{
    legalizer_exists();
    let reply = floor.step(request);
    if write_reply(text, floor, team_of(request), &reply) {
        return reply;
    }
    put(text, b"no 12 OutOfMemory\n");
    Reply::Refused(Refusal::OutOfMemory)
}

/// Answers a command of the socket's team.
#[tactic(auto, using(crate::proofs::LineCases::change_is_lasting, crate::proofs::LineCases::lasting_is_no_query))]
fn answer_own<K: Seeker + Drop>(
    floor: &mut Floor<K>,
    request: &Request,
    text: &mut Vec<u8>,
) -> Outcome
    requires empty { text.old.items ≡ [] }
    requires room { 4096 ≤ vec_capacity text.old }
    ensures answers { (l : Legalizer)
        → AnswersOwn l floor.old (command_with_names request.now) text.new.items result floor.new }
    ensures stays { KeepsDesign floor.old floor.new }
    ensures unchanged { is_change result ≡ false → floor.new ≡ floor.old }
    ensures foreseen { is_change result ≡ true → is_query (command_with_names request.now) ≡ false }
    ensures short { is_query (command_with_names request.now) ≡ false → length text.new.items ≤ 4096 }
    ensures capacity { vec_capacity text.old ≤ vec_capacity text.new }
{
    legalizer_exists();
    let reply = execute(floor, request, text);
    outcome_of(request, &reply)
}

/// Answers a line that is not a request, without the floor.
fn answer_no_request(line: Option<&[u8]>, text: &mut Vec<u8>) -> Outcome
    requires empty { text.old.items ≡ [] }
    requires room { 4096 ≤ vec_capacity text.old }
    ensures answers { (floor : FloorState)
        → AnswersNoRequest (option_map (λ bytes. bytes.now) line.entry) floor text.new.items result floor }
    ensures unchanged { is_change result ≡ false }
    ensures short { length text.new.items ≤ 4096 }
    ensures capacity { vec_capacity text.old ≤ vec_capacity text.new }
{
    if gives_label(line) {
        put(text, b"ok\n");
        return Outcome::Named;
    }
    put(text, b"no 1 BadRequest\n");
    Outcome::Unchanged
}

/// Answers a line by the socket of the team of this number, and writes the reply into an empty
/// buffer. Only an accepted change changes the floor.
pub(crate) fn answer_line<K: Seeker + Drop>(
    floor: &mut Floor<K>,
    team: u32,
    line: &[u8],
    text: &mut Vec<u8>,
) -> Outcome
    requires empty { text.old.items ≡ [] }
    requires room { 4096 ≤ vec_capacity text.old }
    ensures answers { (l : Legalizer) → AnswersLine l team line.now floor.old text.new.items result floor.new }
    ensures stays { KeepsDesign floor.old floor.new }
    ensures unchanged { is_change result ≡ false → floor.new ≡ floor.old }
    ensures foreseen { is_change result ≡ true → can_change line.now ≡ true }
    ensures short { is_query_line line.now ≡ false → length text.new.items ≤ 4096 }
    ensures capacity { vec_capacity text.old ≤ vec_capacity text.new }
{
    let ended = ended_line(line);
    let Some(request) = request_of_line(ended) else {
        return answer_no_request(ended, text);
    };
    if !is_own(floor, team, &request) {
        put(text, b"no 2 NoTeam\n");
        return Outcome::Unchanged;
    }
    answer_own(floor, &request, text)
}
