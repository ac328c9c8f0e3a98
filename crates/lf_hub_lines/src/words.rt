//! The line without its carriage return, and its fields.

ghost use Rattle.std.specs.Prelude.{◌≡◌, option_map, true};
ghost use Rattle.std.specs.List.{list_all};
ghost use Rattle.lf_proto.specs.Lines.{fields, is_line_byte};
ghost use Rattle.lf_proto.specs.Stream.{ended_line, without_return};
ghost use Rattle.lf_hub_lines.specs.HubLines.{fields_on};

use bstr::{ByteSlice, Fields};

/// The most bytes of a line, including its carriage return.
const LIMIT: usize = 4096;

/// Returns the line without one carriage return at its end.
fn without_return(bytes: &[u8]) -> &[u8]
    ensures { result.now ≡ without_return bytes.now }
{
    match bytes.split_last() {
        Some((b'\r', rest)) => rest,
        _ => bytes,
    }
}

/// Returns the line without one carriage return at its end, as connections read it. `None` if it has
/// more than 4,096 bytes.
pub fn ended_line(bytes: &[u8]) -> Option<&[u8]>
    ensures { option_map (λ line. line.now) result ≡ ended_line bytes.now }
{
    if bytes.len() > LIMIT {
        return None;
    }
    Some(without_return(bytes))
}

/// Returns whether each byte may occur in a line.
fn is_line(line: &[u8]) -> bool
    ensures { result ≡ list_all is_line_byte line.now }
{
    line.iter()
        .all(|byte| matches!(*byte, b' ' | b'\t' | b'!'..=b'~'))
}

/// Returns the fields of a line whose bytes may occur in one.
fn split<'a>(line: &'a [u8]) -> Fields<'a>
    requires { list_all is_line_byte line.now ≡ true }
    ensures { result ≡ fields line.now }
{
    line.fields()
}

/// Returns the fields of a line. `None` if a byte cannot occur in a line.
pub(crate) fn fields_of<'a>(line: &'a [u8]) -> Option<Fields<'a>>
    ensures { result ≡ fields_on line.now }
{
    if !is_line(line) {
        return None;
    }
    Some(split(line))
}
