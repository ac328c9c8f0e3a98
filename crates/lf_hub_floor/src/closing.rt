//! The line that closes a session.

ghost use Rattle.std.specs.Prelude.{◌≡◌, ◌≤◌, ◌+◌, ◌++◌, ◌∷◌, ◌⊎◌, [], codes, decimal, false, length, true, vec_capacity, vec_len};
ghost use Rattle.lf_rules.specs.Legalizer.{Legalizer};
ghost use Rattle.lf_proto.specs.Printed.{printed};
ghost use Rattle.lf_proto.specs.declared.request.Command.TheVariants.{To};
ghost use Rattle.lf_proto.specs.declared.request.TeamCommand.TheVariants.{Within};
ghost use Rattle.lf_proto.specs.declared.verb.Action.TheVariants.{Close};
ghost use Rattle.lf_hub_clients.specs.Turns.{is_change};
ghost use Rattle.lf_server.specs.Connections.{KeepsDesign};
ghost use Rattle.lf_hub_floor.specs.Answers.{AnswersLine, closes_session, request_on};

use crate::line_answers::answer_line;
use crate::reply_texts::put;
use itoa::Buffer;
use lf_floor::{Floor, team_name};
use lf_hub_clients::Outcome;
use lf_hub_lines::ended_line;
use lf_legalize::Seeker;
use lf_proto::{Action, Command, TeamCommand};
use lf_rules::legalizer_exists;
use lf_server::request_of_line;

/// The most bytes of a team's name.
const NAME: usize = 1024;

/// Writes the line that closes a session of the team of this name into an empty buffer.
#[tactic(auto, using(crate::proofs::ClosingLines::close_line))]
fn put_close(line: &mut Vec<u8>, team: &[u8], session: u32)
    requires empty { line.old.items ≡ [] }
    requires room { 4096 ≤ vec_capacity line.old }
    requires name { length team.now ≤ 1024 }
    ensures line { line.new.items ≡ printed (To team.now (Within session Close)) }
    ensures short { length line.new.items ≤ 4096 }
    ensures capacity { vec_capacity line.old ≤ vec_capacity line.new }
{
    let mut number = Buffer::new();
    put(line, b"close ");
    put(line, team);
    put(line, b" ");
    put(line, number.format(session).as_bytes());
}

/// Returns whether the line closes this session.
fn closes(line: &[u8], session: u32) -> bool
    ensures { result ≡ closes_session session (request_on line.now) }
{
    match request_of_line(ended_line(line)) {
        Some(
            Command::To {
                order: TeamCommand::Within {
                    session: closed,
                    action: Action::Close,
                },
                ..
            },
        ) => closed == session,
        _ => false,
    }
}

/// Writes the line that closes a session of the team of this number into an empty buffer. The line
/// is empty if there is no such team, or if its name cannot be in a line.
fn write_close<K: Seeker + Drop>(line: &mut Vec<u8>, floor: &Floor<K>, team: u32, session: u32)
    requires empty { line.old.items ≡ [] }
    requires room { 4096 ≤ vec_capacity line.old }
    ensures closes { (closes_session session (request_on line.new.items) ≡ true) ⊎ (line.new.items ≡ []) }
    ensures short { length line.new.items ≤ 4096 }
    ensures capacity { vec_capacity line.old ≤ vec_capacity line.new }
{
    let Some(name) = team_name(floor.placement().frame(), team as usize) else {
        return;
    };
    if name.len() > NAME {
        return;
    }
    put_close(line, name, session);
    if !closes(line.as_slice(), session) {
        line.clear();
    }
}

/// Closes a session of the team of this number: writes the line that does so, and answers it.
#[tactic(auto, using(crate::proofs::ClosingLines::closes_no_query))]
pub(crate) fn close_session<K: Seeker + Drop>(
    floor: &mut Floor<K>,
    team: u32,
    session: u32,
    line: &mut Vec<u8>,
    text: &mut Vec<u8>,
) -> Outcome
    requires line_empty { line.old.items ≡ [] }
    requires line_room { 4096 ≤ vec_capacity line.old }
    requires empty { text.old.items ≡ [] }
    requires room { 4096 ≤ vec_capacity text.old }
    ensures answers { (l : Legalizer) → AnswersLine l team line.new.items floor.old text.new.items result floor.new }
    ensures stays { KeepsDesign floor.old floor.new }
    ensures unchanged { is_change result ≡ false → floor.new ≡ floor.old }
    ensures closes { (result ≡ Outcome.Closed session) ⊎ (is_change result ≡ false) }
    ensures short_line { length line.new.items ≤ 4096 }
    ensures short { length text.new.items ≤ 4096 }
    ensures line_capacity { vec_capacity line.old ≤ vec_capacity line.new }
    ensures capacity { vec_capacity text.old ≤ vec_capacity text.new }
{
    legalizer_exists();
    write_close(line, floor, team, session);
    answer_line(floor, team, line.as_slice(), text)
}
