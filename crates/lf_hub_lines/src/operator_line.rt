//! The lines of the operator that the hub answers itself.

ghost use Rattle.std.specs.Prelude.{◌≡◌, option_map};
ghost use Rattle.lf_hub_lines.specs.OperatorLines.{alone_named, drop_of, operator_line_in, operator_line_on};
ghost use Rattle.lf_hub_lines.specs.OperatorLines.{operator_line_with_names, with_argument};

use crate::words::fields_of;
use bstr::Fields;
use lf_proto::digits_of;

/// A line of the operator that the hub answers itself. Its names have the type `N`: slices of a
/// line, or lists of bytes in a contract.
pub enum OperatorLine<N> {
    /// `stop`: ends the hub.
    Stop,
    /// `state`: saves a state.
    State,
    /// `status`: asks how the hub does.
    Status,
    /// `export PATH`: writes the DEF text with the committed places to a file.
    Export { path: N },
    /// `drop N`: ends the connection of this number.
    Drop { number: u64 },
    /// `freeze TEAM`: changes of the team's clients are refused from now on.
    Freeze { team: N },
    /// `thaw TEAM`: ends that.
    Thaw { team: N },
}

/// Reads a line of one word.
fn alone<'a>(word: &[u8]) -> Option<OperatorLine<&'a [u8]>>
    ensures { option_map operator_line_with_names result ≡ alone_named word.now }
{
    if word == b"stop".as_slice() {
        return Some(OperatorLine::Stop);
    }
    if word == b"state".as_slice() {
        return Some(OperatorLine::State);
    }
    if word == b"status".as_slice() {
        return Some(OperatorLine::Status);
    }
    None
}

/// Reads the number of the connection to be ended.
fn drop_line<'a>(argument: &[u8]) -> Option<OperatorLine<&'a [u8]>>
    ensures { option_map operator_line_with_names result ≡ drop_of argument.now }
{
    let number = digits_of(argument)?;
    Some(OperatorLine::Drop { number })
}

/// Reads a line of two words.
fn with_argument<'a>(word: &[u8], argument: &'a [u8]) -> Option<OperatorLine<&'a [u8]>>
    ensures { option_map operator_line_with_names result ≡ with_argument word.now argument.now }
{
    if word == b"export".as_slice() {
        return Some(OperatorLine::Export { path: argument });
    }
    if word == b"drop".as_slice() {
        return drop_line(argument);
    }
    if word == b"freeze".as_slice() {
        return Some(OperatorLine::Freeze { team: argument });
    }
    if word == b"thaw".as_slice() {
        return Some(OperatorLine::Thaw { team: argument });
    }
    None
}

/// Reads the fields of a line.
fn operator_line_in<'a>(mut fields: Fields<'a>) -> Option<OperatorLine<&'a [u8]>>
    ensures { option_map operator_line_with_names result ≡ operator_line_in fields.entry }
{
    let word = fields.next()?;
    let Some(argument) = fields.next() else {
        return alone(word);
    };
    if fields.next().is_some() {
        return None;
    }
    with_argument(word, argument)
}

/// Reads a line of the operator that the hub answers itself, which is given without its line feed
/// and the carriage return in front of that. `None` if it is not such a line. Does not allocate.
pub fn operator_line_of<'a>(line: &'a [u8]) -> Option<OperatorLine<&'a [u8]>>
    ensures { option_map operator_line_with_names result ≡ operator_line_on line.now }
{
    operator_line_in(fields_of(line)?)
}
