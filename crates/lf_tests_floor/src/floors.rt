//! The floor of all teams.

ghost use Rattle.std.specs.Prelude.{⊤};

use crate::starts::floor_of;
use lf_def::DEMO_DEF;
use lf_floor::{Floor, Response};
use lf_frame::Place;
use lf_io::Output;
use lf_legalize::PlainSeeker;
use lf_orient::Orient;
use lf_proto::{
    Action, Change, Command, Refusal, Reply, Request, RequestList, TeamCommand, reply_text,
};
use lf_tests_support::with_line;
use std::alloc::{AllocError, Global};
use std::test::Fail;

/// The floor of the built-in design with a1 and b1 at the lower left corners of their fences.
pub(crate) fn floor(alloc: Global) -> Result<Floor<PlainSeeker>, Fail> {
    let def = with_line(alloc, DEMO_DEF, 15, b"- a1 INV + PLACED ( 0 0 ) N ;")?;
    let def = with_line(alloc, &def, 18, b"- b1 INV + PLACED ( 6000 0 ) N ;")?;
    floor_of(alloc, &def)
}

/// The request of a team's first session to unplace a cell.
fn unplace<'a>(team: &'a [u8], cell: &'a [u8]) -> Request<'a> {
    let action = Action::Change(Change::Unplace { cell });
    Command::To {
        team,
        order: TeamCommand::Within { session: 0, action },
    }
}

/// B opens a session, unplaces b1 twice, and ends the connection.
fn requests(alloc: Global) -> Result<RequestList, AllocError> {
    let mut list = RequestList::new(alloc);
    list.push(&Command::To {
        team: b"B",
        order: TeamCommand::Open,
    })?;
    list.push(&unplace(b"B", b"b1"))?;
    list.push(&unplace(b"B", b"b1"))?;
    list.push(&Command::Bye)?;
    Ok(list)
}

/// The text of the replies, with their cells named `b1`.
fn text_of(alloc: Global, replies: &[Reply]) -> Result<Vec<u8>, AllocError> {
    let mut text = Vec::new(alloc);
    for reply in replies {
        reply_text(reply, b"b1", b"", &mut text)?;
    }
    Ok(text)
}

/// Returns true if a1 has its place, and b1 is unplaced.
fn is_b1_gone(floor: &Floor<PlainSeeker>) -> bool {
    if floor.place_of(b"B", 0).is_some() {
        return false;
    }
    floor.place_of(b"A", 0) == Some(Place::new(0, 0, Orient::N))
}

/// Returns true if a2 is the second cell of A, and the ground team has no second cell.
fn are_cells_named(floor: &Floor<PlainSeeker>) -> bool {
    if floor.name_of(b"-", 1).is_some() {
        return false;
    }
    floor.name_of(b"A", 1) == Some(b"a2".as_slice())
}

/// The replies to the requests, in one text.
fn ran(alloc: Global, floor: &mut Floor<PlainSeeker>) -> Result<Vec<u8>, AllocError> {
    let replies = floor.run(&requests(alloc)?)?;
    text_of(alloc, &replies)
}

/// Returns true if the requests get these replies, and b1 alone is then unplaced.
fn answers(
    alloc: Global,
    floor: &mut Floor<PlainSeeker>,
    replies: &[u8],
) -> Result<bool, AllocError> {
    if ran(alloc, floor)?.as_slice() != replies {
        return Ok(false);
    }
    Ok(is_b1_gone(floor) && are_cells_named(floor))
}

/// The same for a floor that is then dropped.
fn runs(alloc: Global, mut floor: Floor<PlainSeeker>, replies: &[u8]) -> Result<bool, AllocError> {
    answers(alloc, &mut floor, replies)
}

#[test]
fn runs_requests(rt: HostRuntime) -> Result<(), Fail> {
    let replies = b"ok 0 0\nok 1\nno 6 Unplaced b1\nok\n";
    assert!(rt; runs(rt.alloc(), floor(rt.alloc())?, replies)?);
    Ok(())
}

/// A text in memory.
#[derive(Drop)]
pub(crate) struct Kept {
    pub(crate) text: Vec<u8>,
}

impl Output for Kept {
    ghost took = { λ _ _ _. ⊤ };

    fn put(&mut self, bytes: &[u8]) {
        let _ = self.text.extend_from_slice(bytes);
    }
}

/// The request of a session of A for its DEF text.
fn def_for(session: u32) -> Request<'static> {
    Command::To {
        team: b"A",
        order: TeamCommand::Within {
            session,
            action: Action::Def,
        },
    }
}

/// The DEF text of A, written piece by piece.
fn put_text(alloc: Global, floor: &Floor<PlainSeeker>) -> Vec<u8> {
    let mut kept = Kept {
        text: Vec::new(alloc),
    };
    floor.write_def(b"A", &mut kept);
    kept.text
}

/// Returns true if the written DEF text is that of the reply, with the length that the response
/// has, and other replies are complete.
fn responds(alloc: Global, floor: &mut Floor<PlainSeeker>) -> bool {
    let opened = floor.respond(&Command::To {
        team: b"A",
        order: TeamCommand::Open,
    });
    let Response::Reply(Reply::Opened { .. }) = opened else {
        return false;
    };
    let Response::Reply(Reply::Refused(Refusal::NoSession)) = floor.respond(&def_for(1)) else {
        return false;
    };
    let Response::DefText(count) = floor.respond(&def_for(0)) else {
        return false;
    };
    let Reply::Def(text) = floor.step(&def_for(0)) else {
        return false;
    };
    count == text.as_bytes().len() && put_text(alloc, floor).as_slice() == text.as_bytes()
}

/// The same for a floor that is then dropped.
fn puts_its_text(alloc: Global, mut floor: Floor<PlainSeeker>) -> bool {
    responds(alloc, &mut floor)
}

#[test]
fn puts_a_def_text(rt: HostRuntime) -> Result<(), Fail> {
    assert!(rt; puts_its_text(rt.alloc(), floor(rt.alloc())?));
    Ok(())
}
