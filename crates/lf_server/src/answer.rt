//! Replies to lines, and the texts of short replies.

ghost use Rattle.std.specs.Prelude.{◌≡◌, ◌≤◌, ℕ, decimal, false, length, option_map, vec_capacity};
ghost use Rattle.std.specs.Fmt.{signed_decimal};
ghost use Rattle.lf_orient.specs.Words.{orient_word};
ghost use Rattle.lf_rules.specs.Legalizer.{Legalizer};
ghost use Rattle.lf_proto.specs.Commands.{command_with_names};
ghost use Rattle.lf_proto.specs.ReplyText.{reply_text};
ghost use Rattle.lf_proto.specs.declared.reply.Reply.TheVariants.{Refused};
ghost use Rattle.lf_floor.specs.Responses.{def_text, reply_in};
ghost use Rattle.lf_floor.specs.declared.response.Response.TheVariants.{DefText};
ghost use Rattle.lf_server.specs.Exchanges.{requested_on, requests_end, reply_cells, is_long, name_in, reply_text_of};
ghost use Rattle.lf_server.specs.Connections.{KeepsDesign};
ghost use Rattle.lf_server.specs.Progress.{IsAnswered, team_requested};

use lf_floor::{Floor, Response};
use lf_floorplan::Place;
use lf_legalize::Seeker;
use lf_proto::{Command, Refusal, Reply, Request, parse_line, reply_text};

/// Returns the request of a line, or `None` if the line is too long or is no request.
pub fn request_of_line<'a>(line: Option<&'a [u8]>) -> Option<Request<'a>>
    ensures { option_map command_with_names result ≡ requested_on (option_map (λ bytes. bytes.now) line.entry) }
{
    match parse_line(line?) {
        Ok(request) => Some(request),
        Err(_) => None,
    }
}

/// Returns whether the request ends the connection.
pub(crate) fn is_end(request: &Option<Request>) -> bool
    ensures { result ≡ requests_end (option_map command_with_names request.now) }
{
    match request {
        Some(Command::Bye) => true,
        Some(Command::To { .. }) => false,
        None => false,
    }
}

/// Returns the positions of the cells that a reply names: the cell, and the other cell.
fn cells_in(reply: &Reply) -> (Option<u32>, Option<u32>)
    ensures { result ≡ reply_cells reply.now }
{
    match reply {
        Reply::Refused(Refusal::Unplaced { cell }) => (Some(*cell), None),
        Reply::Refused(Refusal::NoPlace { cell }) => (Some(*cell), None),
        Reply::Refused(Refusal::Illegal { cell, other, .. }) => (Some(*cell), *other),
        _ => (None, None),
    }
}

/// Returns the name of the team's cell at this position, or no bytes if there is no such cell.
fn name_in<'a, K: Seeker + Drop>(floor: &'a Floor<K>, team: &[u8], cell: Option<u32>) -> &'a [u8]
    ensures name { result.now ≡ name_in floor.now team.now cell }
    ensures short { length result.now ≤ 1024 }
{
    match cell {
        Some(own) => floor.name_of(team, own as usize).unwrap_or(b""),
        None => b"",
    }
}

/// Lemma: a number of 32 bits has at most 10 digits.
fn number_is_short(number: u32)
    ensures { length (decimal number) ≤ 10 }
{}

/// Lemma: a coordinate has at most 10 digits and a sign.
fn coordinate_is_short(coordinate: i32)
    ensures { length (signed_decimal coordinate) ≤ 11 }
{}

/// Lemma: the two coordinates of a place are short, and its orientation has at most two letters.
fn place_is_short(place: &Place)
    ensures x { length (signed_decimal place.now.x) ≤ 11 }
    ensures y { length (signed_decimal place.now.y) ≤ 11 }
    ensures orient { length (orient_word place.now.orient) ≤ 2 }
{
    coordinate_is_short(place.x);
    coordinate_is_short(place.y);
}

/// Lemma: the line of a refusal fits into the buffer.
fn refusal_fits(refusal: &Refusal, cell_name: &[u8], other_name: &[u8])
    requires cell { length cell_name.now ≤ 1024 }
    requires other { length other_name.now ≤ 1024 }
    ensures { length (reply_text (Refused refusal.now) cell_name.now other_name.now) ≤ 4096 }
{
    match refusal {
        Refusal::Stale { revision } => number_is_short(*revision),
        _ => {}
    }
}

/// Lemma: the text of a reply that is neither a report nor a DEF text fits into the buffer.
fn text_fits(reply: &Reply, cell_name: &[u8], other_name: &[u8])
    requires cell { length cell_name.now ≤ 1024 }
    requires other { length other_name.now ≤ 1024 }
    ensures { is_long reply.now ≡ false → length (reply_text reply.now cell_name.now other_name.now) ≤ 4096 }
{
    match reply {
        Reply::Opened { session, revision } => {
            number_is_short(*session);
            number_is_short(*revision);
        }
        Reply::Revision(revision) => number_is_short(*revision),
        Reply::At(place) => place_is_short(place),
        Reply::Legalized { revision, place } => {
            number_is_short(*revision);
            place_is_short(place);
        }
        Reply::Tidied { revision, moved } => {
            number_is_short(*revision);
            number_is_short(*moved);
        }
        Reply::Refused(refusal) => refusal_fits(refusal, cell_name, other_name),
        Reply::Done => {}
        Reply::Report(_) => {}
        Reply::Def(_) => {}
    }
}

/// Replaces the contents of a buffer, which has room for 4,096 bytes, with the text of a reply to one
/// of the team's commands. The reply is neither a report nor a DEF text.
pub fn write_short_reply<K: Seeker + Drop>(
    text: &mut Vec<u8>,
    floor: &Floor<K>,
    team: &[u8],
    reply: &Reply,
)
    requires short { is_long reply.now ≡ false }
    requires room { 4096 ≤ vec_capacity text.old }
    ensures text { text.new.items ≡ reply_text_of floor.now team.now reply.now }
    ensures length { length text.new.items ≤ 4096 }
    ensures capacity { vec_capacity text.old ≤ vec_capacity text.new }
{
    let (cell, other) = cells_in(reply);
    let cell_name = name_in(floor, team, cell);
    let other_name = name_in(floor, team, other);
    text_fits(reply, cell_name, other_name);
    text.clear();
    if reply_text(reply, cell_name, other_name, text).is_err() {
        unreachable!();
    }
}

/// Returns the team that a request names, or no bytes for `bye` and for a line that is no request.
pub(crate) fn team_requested<'a>(request: &Option<Request<'a>>) -> &'a [u8]
    ensures { result.now ≡ team_requested (option_map command_with_names request.now) }
{
    match request {
        Some(Command::To { team, .. }) => team,
        Some(Command::Bye) => b"",
        None => b"",
    }
}

/// Answers a line with one step of the floor, or with `BadRequest`. A DEF text is not written yet.
pub(crate) fn answer<K: Seeker + Drop>(floor: &mut Floor<K>, request: &Option<Request>) -> Response
    ensures stays { KeepsDesign floor.old floor.new }
    ensures answered { (l : Legalizer) → IsAnswered l floor.old (option_map command_with_names request.now)
        (reply_in floor.new (team_requested (option_map command_with_names request.now)) result) floor.new }
    ensures length { (count : ℕ) → result ≡ DefText count
        → count ≡ length (def_text floor.new (team_requested (option_map command_with_names request.now))) }
{
    match request {
        None => Response::Reply(Reply::Refused(Refusal::BadRequest)),
        Some(request) => floor.respond(request),
    }
}
