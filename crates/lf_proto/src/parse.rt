//! Request lines.

ghost use Rattle.std.specs.Prelude.{◌≡◌, MatchResult, None, Some, true, option_map};
ghost use Rattle.std.specs.List.{list_all};
ghost use Rattle.lf_proto.specs.Commands.{command_with_names};
ghost use Rattle.lf_proto.specs.Lines.{fields, is_line_byte};
ghost use Rattle.lf_proto.specs.Requests.{command_in, command_on, orient_named, place_of_words, place_written, target_of_words};
ghost use Rattle.lf_proto.specs.Requests.{action_by, alone_of, bye_of, cell_at_of, one_cell_operands, cell_to_of, two_cell_operands, open_of};
ghost use Rattle.lf_proto.specs.Requests.{operands_by, outside_of, sites_of, within_of};
ghost use Rattle.lf_proto.specs.Verbs.{action_of, operands_of};
ghost use Rattle.lf_proto.specs.Printed.{PassesBlanksAround, PassesBlanksBetween, RequestReadsBack};

use crate::numbers::{coordinate_of, padding_of, session_of};
use crate::request::{Command, Request, TeamCommand};
use crate::verb::{
    Action, Operands, Shape, Verb, copies_join, join, names_read_back, parts_join, verb_of,
};
use bstr::{ByteSlice, Fields};
use lf_floorplan::Place;
use lf_orient::Orient;
use lf_units::Point;

/// The error for a line that is not a request.
#[derive(Clone, Copy, Debug, PartialEq, Eq)]
pub struct BadRequest;

/// Returns the orientation of that name. `None` if there is no such orientation.
pub fn orient_named(word: &[u8]) -> Option<Orient>
    ensures { result ≡ orient_named word.now }
{
    match word {
        b"N" => Some(Orient::N),
        b"W" => Some(Orient::W),
        b"S" => Some(Orient::S),
        b"E" => Some(Orient::E),
        b"FN" => Some(Orient::FN),
        b"FW" => Some(Orient::FW),
        b"FS" => Some(Orient::FS),
        b"FE" => Some(Orient::FE),
        _ => None,
    }
}

/// Returns the place in three words. `None` if they are not a place.
pub fn read_place(x: &[u8], y: &[u8], orient: &[u8]) -> Option<Place>
    ensures { result ≡ place_written x.now y.now orient.now }
{
    let x = coordinate_of(x)?;
    let y = coordinate_of(y)?;
    let orient = orient_named(orient)?;
    Some(Place::new(x, y, orient))
}

/// Reads the place `X Y O` from the last fields.
fn last_place(mut fields: Fields<'_>) -> Option<Place>
    ensures { result ≡ place_of_words fields.entry }
{
    let x = fields.next()?;
    let y = fields.next()?;
    let orient = fields.next()?;
    if fields.next().is_some() {
        return None;
    }
    read_place(x, y, orient)
}

/// Reads the target `X Y` from the last fields.
fn last_target(mut fields: Fields<'_>) -> Option<Point>
    ensures { result ≡ target_of_words fields.entry }
{
    let x = fields.next()?;
    let y = fields.next()?;
    if fields.next().is_some() {
        return None;
    }
    let x = coordinate_of(x)?;
    let y = coordinate_of(y)?;
    Some(Point {
        x: i64::from(x),
        y: i64::from(y),
    })
}

/// Reads the operands of a verb without fields of its own.
fn alone<'a>(mut fields: Fields<'a>) -> Option<Operands<&'a [u8]>>
    ensures { option_map operands_of result ≡ alone_of fields.entry }
{
    if fields.next().is_some() {
        return None;
    }
    Some(Operands::Alone)
}

/// Reads the field `CELL`.
fn cell<'a>(mut fields: Fields<'a>) -> Option<Operands<&'a [u8]>>
    ensures { option_map operands_of result ≡ one_cell_operands fields.entry }
{
    let cell = fields.next()?;
    if fields.next().is_some() {
        return None;
    }
    Some(Operands::Cell(cell))
}

/// Reads the fields `CELL X Y O`.
fn cell_at<'a>(mut fields: Fields<'a>) -> Option<Operands<&'a [u8]>>
    ensures { option_map operands_of result ≡ cell_at_of fields.entry }
{
    let cell = fields.next()?;
    let place = last_place(fields)?;
    Some(Operands::CellAt(cell, place))
}

/// Reads the fields `CELL X Y`.
fn cell_to<'a>(mut fields: Fields<'a>) -> Option<Operands<&'a [u8]>>
    ensures { option_map operands_of result ≡ cell_to_of fields.entry }
{
    let cell = fields.next()?;
    let target = last_target(fields)?;
    Some(Operands::CellTo(cell, target))
}

/// Reads the fields `CELL CELL`.
fn cells<'a>(mut fields: Fields<'a>) -> Option<Operands<&'a [u8]>>
    ensures { option_map operands_of result ≡ two_cell_operands fields.entry }
{
    let first = fields.next()?;
    let second = fields.next()?;
    if fields.next().is_some() {
        return None;
    }
    Some(Operands::Cells(first, second))
}

/// Reads the field `P`.
fn sites<'a>(mut fields: Fields<'a>) -> Option<Operands<&'a [u8]>>
    ensures { option_map operands_of result ≡ sites_of fields.entry }
{
    let sites = fields.next()?;
    if fields.next().is_some() {
        return None;
    }
    let padding = padding_of(sites)?;
    Some(Operands::Sites(padding))
}

/// Reads the fields of that shape.
fn operands_in<'a>(shape: Shape, fields: Fields<'a>) -> Option<Operands<&'a [u8]>>
    ensures { option_map operands_of result ≡ operands_by shape fields.entry }
{
    match shape {
        Shape::Alone => alone(fields),
        Shape::Cell => cell(fields),
        Shape::CellAt => cell_at(fields),
        Shape::CellTo => cell_to(fields),
        Shape::Cells => cells(fields),
        Shape::Sites => sites(fields),
    }
}

/// Reads a session's action, given its verb and the fields after its number.
fn action_in<'a>(verb: Verb, fields: Fields<'a>) -> Option<Action<&'a [u8]>>
    ensures { option_map action_of result ≡ action_by verb fields.entry }
{
    copies_join();
    let operands = operands_in(verb.shape(), fields)?;
    join(verb, operands)
}

/// Reads the request `bye`, given the fields after the verb.
fn bye_request<'a>(mut fields: Fields<'a>) -> Option<Request<'a>>
    ensures { option_map command_with_names result ≡ bye_of fields.entry }
{
    if fields.next().is_some() {
        return None;
    }
    Some(Command::Bye)
}

/// Reads the request `open TEAM`, given the fields after the verb.
fn open_request<'a>(mut fields: Fields<'a>) -> Option<Request<'a>>
    ensures { option_map command_with_names result ≡ open_of fields.entry }
{
    let team = fields.next()?;
    if fields.next().is_some() {
        return None;
    }
    Some(Command::To {
        team,
        order: TeamCommand::Open,
    })
}

/// Reads the request of a session's verb: `TEAM N` and the verb's own fields, given the fields
/// after the verb.
fn session_request<'a>(verb: Verb, mut fields: Fields<'a>) -> Option<Request<'a>>
    ensures { option_map command_with_names result ≡ within_of verb fields.entry }
{
    let team = fields.next()?;
    let session = session_of(fields.next()?)?;
    let action = action_in(verb, fields)?;
    Some(Command::To {
        team,
        order: TeamCommand::Within { session, action },
    })
}

/// Reads the request `bye` or `open`, given that word and the fields after it.
fn outside_request<'a>(word: &[u8], fields: Fields<'a>) -> Option<Request<'a>>
    ensures { option_map command_with_names result ≡ outside_of word.now fields.entry }
{
    match word {
        b"bye" => bye_request(fields),
        b"open" => open_request(fields),
        _ => None,
    }
}

/// Reads the request in the fields of a line.
fn request_of_fields<'a>(mut fields: Fields<'a>) -> Option<Request<'a>>
    ensures { option_map command_with_names result ≡ command_in fields.entry }
{
    let word = fields.next()?;
    match verb_of(word) {
        Some(verb) => session_request(verb, fields),
        None => outside_request(word, fields),
    }
}

/// Returns true if each byte may occur in a line.
fn is_line(line: &[u8]) -> bool
    ensures { result ≡ list_all is_line_byte line.now }
{
    line.iter()
        .all(|byte| matches!(*byte, b' ' | b'\t' | b'!'..=b'~'))
}

/// The runs of bytes between the blanks.
fn fields_of<'a>(line: &'a [u8]) -> Fields<'a>
    requires { list_all is_line_byte line.now ≡ true }
    ensures { result ≡ fields line.now }
{
    line.fields()
}

/// Reads the request of a line, which is given without its line feed and the carriage return in
/// front of that. The names of the request are slices of the line. Does not allocate.
///
/// `Err(BadRequest)` if and only if the line is not a request.
pub fn parse_line<'a>(line: &'a [u8]) -> Result<Request<'a>, BadRequest>
    ensures { MatchResult result (λ request. command_on line.now ≡ Some (command_with_names request))
        (λ _. command_on line.now ≡ None) }
{
    if !is_line(line) {
        return Err(BadRequest);
    }
    request_of_fields(fields_of(line)).ok_or(BadRequest)
}

/// A law: if a line prints a request, its fields in order with one space between each two,
/// `parse_line` returns that request. This holds for every request whose names have visible bytes
/// alone and whose numbers have 32 bits.
pub fn printed_reads_back()
    ensures { RequestReadsBack }
{
    names_read_back();
    parts_join();
}

/// A law: blanks around a line do not matter. With one more blank at either end the result of
/// `parse_line` is the same.
pub fn blanks_around_pass()
    ensures { PassesBlanksAround }
{}

/// A law: the number of blanks between two fields does not matter, nor whether they are spaces or
/// tabs. Two in a row are equivalent to any single one.
pub fn blanks_between_pass()
    ensures { PassesBlanksBetween }
{}
