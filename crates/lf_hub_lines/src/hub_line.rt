//! The lines of a team's clients that the hub answers itself.

ghost use Rattle.std.specs.Prelude.{◌≡◌, option_and_then, option_map};
ghost use Rattle.std.specs.List.{list_all};
ghost use Rattle.lf_proto.specs.Numbers.{session_number};
ghost use Rattle.lf_hub_lines.specs.HubLines.{hub_line_in, hub_line_on, hub_line_with_names};
ghost use Rattle.lf_hub_lines.specs.HubLines.{is_label, is_label_byte, label_of, units_of, wait_of};

use crate::words::fields_of;
use bstr::Fields;
use lf_proto::digits_of;

/// The most bytes of a label.
const LABEL: usize = 64;

/// A line of a client that the hub answers itself. Its names have the type `N`: slices of a line,
/// or lists of bytes in a contract.
#[derive(Drop)]
pub enum HubLine<N> {
    /// `iam NAME`: the name is the label of the connection. It has 1 to 64 letters, digits, `_`,
    /// `.`, `-` and `@`.
    Label { name: N },
    /// `units`: asks for the database units per micron.
    Units,
    /// `wait TEAM REV`: waits until the revision of the team is greater.
    Wait { team: N, revision: u32 },
}

/// Returns whether each byte may occur in a label.
fn are_label_bytes(name: &[u8]) -> bool
    ensures { result ≡ list_all is_label_byte name.now }
{
    name.iter().all(
        |byte| matches!(*byte, b'a'..=b'z' | b'A'..=b'Z' | b'0'..=b'9' | b'_' | b'.' | b'-' | b'@'),
    )
}

/// Returns whether the name may be a label.
fn is_label(name: &[u8]) -> bool
    ensures { result ≡ is_label name.now }
{
    !name.is_empty() && name.len() <= LABEL && are_label_bytes(name)
}

/// Reads the field `NAME` of a label.
fn label<'a>(mut fields: Fields<'a>) -> Option<HubLine<&'a [u8]>>
    ensures { option_map hub_line_with_names result ≡ label_of fields.entry }
{
    let name = fields.next()?;
    if fields.next().is_some() || !is_label(name) {
        return None;
    }
    Some(HubLine::Label { name })
}

/// Reads a line without fields after its first word.
fn units<'a>(mut fields: Fields<'a>) -> Option<HubLine<&'a [u8]>>
    ensures { option_map hub_line_with_names result ≡ units_of fields.entry }
{
    if fields.next().is_some() {
        return None;
    }
    Some(HubLine::Units)
}

/// Returns the revision in the word. `None` if it is not a number of 32 bits in 1 to 10 digits.
fn revision_of(word: &[u8]) -> Option<u32>
    ensures { result ≡ session_number word.now }
{
    u32::try_from(digits_of(word)?).ok()
}

/// Reads the fields `TEAM REV`.
fn wait<'a>(mut fields: Fields<'a>) -> Option<HubLine<&'a [u8]>>
    ensures { option_map hub_line_with_names result ≡ wait_of fields.entry }
{
    let team = fields.next()?;
    let word = fields.next()?;
    if fields.next().is_some() {
        return None;
    }
    let revision = revision_of(word)?;
    Some(HubLine::Wait { team, revision })
}

/// Reads the fields of a line.
fn hub_line_in<'a>(mut fields: Fields<'a>) -> Option<HubLine<&'a [u8]>>
    ensures { option_map hub_line_with_names result ≡ hub_line_in fields.entry }
{
    let word = fields.next()?;
    if word == b"iam".as_slice() {
        return label(fields);
    }
    if word == b"units".as_slice() {
        return units(fields);
    }
    if word == b"wait".as_slice() {
        return wait(fields);
    }
    None
}

/// Reads a line of a client that the hub answers itself, which is given without its line feed and
/// the carriage return in front of that. `None` if it is not such a line. Does not allocate.
pub fn hub_line_of<'a>(line: &'a [u8]) -> Option<HubLine<&'a [u8]>>
    ensures { option_map hub_line_with_names result ≡ hub_line_on line.now }
{
    hub_line_in(fields_of(line)?)
}
