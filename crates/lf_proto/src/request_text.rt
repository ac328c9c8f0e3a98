//! Prints requests as lines.

ghost use Rattle.std.specs.Prelude.{◌≡◌, ◌++◌, OnOk};
ghost use Rattle.lf_proto.specs.Commands.{command_with_names};
ghost use Rattle.lf_proto.specs.Printed.{request_line};
ghost use Rattle.lf_proto.specs.Verbs.{action_of, change_of};
ghost use Rattle.lf_proto.specs.declared.request.Command.TheVariants.{To};
ghost use Rattle.lf_proto.specs.declared.request.TeamCommand.TheVariants.{Within};
ghost use Rattle.lf_proto.specs.declared.verb.Action.TheVariants.{Change as Changing};
ghost use Rattle.lf_proto.specs.declared.verb.Change.TheVariants.{Place as PlaceAt};

use crate::request::{Command, Request, TeamCommand};
use crate::verb::{Action, Change};
use crate::words::{Word, put_line};
use lf_floorplan::Place;
use lf_orient::orient_word;
use std::alloc::AllocError;

/// Appends the line of a `place`.
fn put_place<'x>(
    out: &mut Vec<u8>,
    team: &'x [u8],
    session: u32,
    cell: &'x [u8],
    place: &Place,
) -> Result<(), AllocError>
    ensures { OnOk result (out.new.items ≡ out.old.items
        ++ request_line (To team.now (Within session (Changing (PlaceAt cell.now place.now))))) }
{
    put_line(
        out,
        b"place",
        &[
            Word::Text(team),
            Word::Number(session),
            Word::Text(cell),
            Word::Signed(place.x),
            Word::Signed(place.y),
            Word::Text(orient_word(place.orient)),
        ],
    )
}

/// Appends the line of a change.
fn put_change<'x>(
    out: &mut Vec<u8>,
    team: &'x [u8],
    session: u32,
    change: &Change<&'x [u8]>,
) -> Result<(), AllocError>
    ensures { OnOk result (out.new.items ≡ out.old.items
        ++ request_line (To team.now (Within session (Changing (change_of change.now))))) }
{
    let (name, number) = (Word::Text(team), Word::Number(session));
    match change {
        Change::Place { cell, place } => put_place(out, team, session, cell, place),
        Change::Legalize { cell, target } => put_line(
            out,
            b"legalize",
            &[
                name,
                number,
                Word::Text(cell),
                Word::Long(target.x),
                Word::Long(target.y),
            ],
        ),
        Change::Tidy => put_line(out, b"tidy", &[name, number]),
        Change::Unplace { cell } => put_line(out, b"unplace", &[name, number, Word::Text(cell)]),
        Change::Swap { first, second } => put_line(
            out,
            b"swap",
            &[name, number, Word::Text(first), Word::Text(second)],
        ),
        Change::Undo => put_line(out, b"undo", &[name, number]),
        Change::Commit => put_line(out, b"commit", &[name, number]),
        Change::Revert => put_line(out, b"revert", &[name, number]),
        Change::Pad { padding } => put_line(
            out,
            b"pad",
            &[name, number, Word::Number(padding.sites)],
        ),
    }
}

/// Appends the line of an action.
fn put_action<'x>(
    out: &mut Vec<u8>,
    team: &'x [u8],
    session: u32,
    action: &Action<&'x [u8]>,
) -> Result<(), AllocError>
    ensures { OnOk result (out.new.items ≡ out.old.items
        ++ request_line (To team.now (Within session (action_of action.now)))) }
{
    let words = [Word::Text(team), Word::Number(session)];
    match action {
        Action::Close => put_line(out, b"close", &words),
        Action::Sync => put_line(out, b"sync", &words),
        Action::Check => put_line(out, b"check", &words),
        Action::Def => put_line(out, b"def", &words),
        Action::Where { cell } => put_line(
            out,
            b"where",
            &[Word::Text(team), Word::Number(session), Word::Text(cell)],
        ),
        Action::Find { cell, target } => put_line(
            out,
            b"find",
            &[
                Word::Text(team),
                Word::Number(session),
                Word::Text(cell),
                Word::Long(target.x),
                Word::Long(target.y),
            ],
        ),
        Action::Change(change) => put_change(out, team, session, change),
    }
}

/// Appends the line of a request, with its line feed, in the form of a journal. It reads back as
/// that request. `Err` if an allocation fails; a prefix of the line may then be appended.
pub fn write_request(out: &mut Vec<u8>, request: &Request) -> Result<(), AllocError>
    ensures { OnOk result (out.new.items ≡ out.old.items ++ request_line (command_with_names request.now)) }
{
    match request {
        Command::Bye => put_line(out, b"bye", &[]),
        Command::To { team, order } => match order {
            TeamCommand::Open => put_line(out, b"open", &[Word::Text(team)]),
            TeamCommand::Within { session, action } => put_action(out, team, *session, action),
        },
    }
}
