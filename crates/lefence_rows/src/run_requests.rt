//! Replies to the requests of a row that are passed as one list.

ghost use Rattle.std.specs.Prelude.{◌≡◌};

use lf_floor::Floor;
use lf_legalize::Seeker;
use lf_proto::{Command, Refusal, Reply, Request, RequestList, parse_line, reply_text};
use std::alloc::{AllocError, Global};

/// Returns the requests of the lines, in order. A line that is no request is skipped.
fn requests_of(alloc: Global, lines: &[u8]) -> Result<RequestList, AllocError> {
    let mut list = RequestList::new(alloc);
    for line in lines.split(|byte| *byte == b'\n') {
        if let Ok(request) = parse_line(line) {
            list.push(&request)?;
        }
    }
    Ok(list)
}

/// Returns the team that a request names, or no bytes for `bye`.
fn team_of<'a>(request: &Option<Request<'a>>) -> &'a [u8] {
    match request {
        Some(Command::To { team, .. }) => team,
        _ => b"",
    }
}

/// Returns the positions of the cells that a reply names: the cell, and the other cell.
fn cells_in(reply: &Reply) -> (Option<u32>, Option<u32>) {
    match reply {
        Reply::Refused(Refusal::Unplaced { cell }) => (Some(*cell), None),
        Reply::Refused(Refusal::NoPlace { cell }) => (Some(*cell), None),
        Reply::Refused(Refusal::Illegal { cell, other, .. }) => (Some(*cell), *other),
        _ => (None, None),
    }
}

/// Returns the name of the team's cell at this position, or no bytes if there is no such cell.
fn name_in<'a, S: Seeker + Drop>(floor: &'a Floor<S>, team: &[u8], cell: Option<u32>) -> &'a [u8] {
    match cell {
        Some(own) => floor.name_of(team, own as usize).unwrap_or(b""),
        None => b"",
    }
}

/// Appends the text of a reply to a request.
fn put_reply<S: Seeker + Drop>(
    floor: &Floor<S>,
    request: &Option<Request<'_>>,
    reply: &Reply,
    text: &mut Vec<u8>,
) -> Result<(), AllocError> {
    let team = team_of(request);
    let (cell, other) = cells_in(reply);
    reply_text(
        reply,
        name_in(floor, team, cell),
        name_in(floor, team, other),
        text,
    )
}

/// Appends the replies to the requests of these lines, run as one list.
pub fn put_run<S: Seeker + Drop>(
    alloc: Global,
    floor: &mut Floor<S>,
    lines: &[u8],
    text: &mut Vec<u8>,
) -> Result<(), AllocError>
    ensures { floor.new.components ≡ floor.old.components }
{
    let requests = requests_of(alloc, lines)?;
    let replies = floor.run(&requests)?;
    for (at, reply) in replies.iter().enumerate() {
        put_reply(floor, &requests.request(at), reply, text)?;
    }
    Ok(())
}
