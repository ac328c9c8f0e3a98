//! Places as words.

ghost use Rattle.std.specs.Prelude.{◌≡◌, ◌<◌, ◌≤◌, ◌==◌, ◌++◌, IfSome, List, Ok, Some, ℕ, drop, length, option_map, position, slice_index};
ghost use Rattle.lf_proto.specs.Requests.{orient_named};
ghost use Rattle.lf_state_text.specs.Reading.{read_spot};
ghost use Rattle.lf_state_text.specs.Words.{Begins, cut, place_in_word, place_or_dash};

use crate::read_numbers::front_coordinate;
use lf_floorplan::{PackedPlace, Place};
use lf_orient::Orient;
use lf_proto::{orient_named, read_place};

/// Returns the bytes in front of and after the first `byte`. `None` if there is no `byte`.
#[tactic(auto, unfolding(crate::specs::Words::cut))]
fn cut(byte: u8, bytes: &[u8]) -> Option<(&[u8], &[u8])>
    ensures { option_map (λ x. (x.0.now, x.1.now)) result ≡ cut byte bytes.now }
{
    let at = position_of(byte, bytes)?;
    Some((&bytes[..at], &bytes[at + 1..]))
}

/// Returns the position of the first `byte`. `None` if there is no `byte`.
pub(crate) fn position_of(byte: u8, bytes: &[u8]) -> Option<usize>
    ensures found { result ≡ position (λ b. b == byte) bytes.now }
    ensures within { IfSome result (λ at. at < length bytes.now) }
{
    bytes.iter().position(|b| *b == byte)
}

/// Returns the place in a word with commas between its parts. `None` if it is not a place.
#[tactic(auto, unfolding(crate::specs::Words::place_in_word))]
fn place_in(word: &[u8]) -> Option<Place>
    ensures { result ≡ place_in_word word.now }
{
    let (x, rest) = cut(b',', word)?;
    let (y, orient) = cut(b',', rest)?;
    read_place(x, y, orient)
}

/// Returns the place in a word; a minus alone is no place. `None` if the word is neither.
#[tactic(auto, unfolding(crate::specs::Words::place_or_dash))]
pub(crate) fn place_on(word: &[u8]) -> Option<PackedPlace>
    ensures { result ≡ place_or_dash word.now }
{
    if word == b"-".as_slice() {
        return Some(PackedPlace::of(None));
    }
    let place = place_in(word)?;
    Some(PackedPlace::of(Some(place)))
}

/// Returns the number of bytes in front of `byte`, if it is one or two.
fn short_len(byte: u8, bytes: &[u8]) -> Option<usize>
    ensures within { IfSome result (λ len. len < length bytes.now) }
    ensures found { IfSome result (λ len. slice_index bytes.now len ≡ byte) }
{
    if 1 < bytes.len() && bytes[1] == byte {
        return Some(1);
    }
    if 2 < bytes.len() && bytes[2] == byte {
        return Some(2);
    }
    None
}

/// Returns the leading orientation, whose name `byte` ends, and the bytes after `byte`.
fn front_orient(byte: u8, bytes: &[u8]) -> Option<(Orient, &[u8])>
    ensures { IfSome result (λ x. Begins orient_named byte bytes.now x.0 x.1.now) }
{
    let len = short_len(byte, bytes)?;
    let orient = orient_named(&bytes[..len])?;
    Some((orient, &bytes[len + 1..]))
}

/// Returns the leading place, whose word `byte` ends, and the count of bytes up to and including
/// `byte`. `None` if not all of these bytes are here.
pub(crate) fn front_place(byte: u8, bytes: &[u8]) -> Option<(Place, usize)>
    requires { byte ≤ 32 }
    ensures within { IfSome result (λ x. x.1 ≤ length bytes.now) }
    ensures read { IfSome result
        (λ x. (later : List ℕ) → read_spot byte (bytes.now ++ later) ≡ Ok (Some x.0, drop x.1 bytes.now ++ later)) }
{
    let (x, rest) = front_coordinate(bytes)?;
    let (y, rest) = front_coordinate(rest)?;
    let (orient, rest) = front_orient(byte, rest)?;
    Some((Place::new(x, y, orient), bytes.len() - rest.len()))
}
