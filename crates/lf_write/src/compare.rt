//! The placement clause of a location, compared with the bytes of a text. The clause is not written
//! for that: its parts are removed from the front of the bytes, one after the other.

ghost use Rattle.std.specs.Prelude.{◌≡◌, ◌^◌, ◌<◌, ◌≤◌, ◌++◌, IfSome, Some, bytes_eq, decimal, length, take};
ghost use Rattle.std.specs.Fmt.{signed_decimal};
ghost use Rattle.lf_lex.specs.Splices.{joined_words};
ghost use Rattle.lf_write.specs.Comparing.{IsRestOfText, before_orient};
ghost use Rattle.lf_write.specs.Export.{location_clause_words};

use itoa::Buffer;
use lf_def::Location;
use lf_orient::orient_word;

/// Returns what is left after `due`, or `None` if the bytes do not begin with it.
fn after_it<'a>(bytes: &'a [u8], due: &[u8]) -> Option<&'a [u8]>
    ensures { IsRestOfText bytes.now (λ rest. due.now ++ rest) result }
{
    bytes.strip_prefix(due)
}

/// Returns how many bytes at the front denote the number. Reads each digit once, until the value is
/// at least the number. `None` if the bytes denote another number, or begin with a 0.
fn number_len(bytes: &[u8], number: u64) -> Option<usize>
    requires { number < 2 ^ 32 }
    ensures within { IfSome result (λ len. len ≤ length bytes.now) }
    ensures number { IfSome result (λ len. take len bytes.now ≡ decimal number) }
{
    if bytes.is_empty() || bytes[0] == b'0' {
        return None;
    }
    let mut total = 0;
    for (at, byte) in bytes.iter().enumerate() {
        if !byte.is_ascii_digit() {
            return None;
        }
        total = total * 10 + (*byte - b'0') as u64;
        if total == number {
            return Some(at + 1);
        }
        if number < total {
            return None;
        }
    }
    None
}

/// Returns what is left after the number, if the number is not 0 and the digits denote it. `None`
/// otherwise. Faster than writing the number.
fn after_digits<'a>(bytes: &'a [u8], number: &i32) -> Option<&'a [u8]>
    ensures { IfSome result (λ left. bytes.now ≡ signed_decimal number.now ++ left.now) }
{
    if *number < 0 {
        let [b'-', digits @ ..] = bytes else {
            return None;
        };
        let len = number_len(digits, number.unsigned_abs() as u64)?;
        return Some(&digits[len..]);
    }
    let len = number_len(bytes, *number as u64)?;
    Some(&bytes[len..])
}

/// Returns what is left after the number, or `None` if the bytes do not begin with it.
fn after_number<'a>(bytes: &'a [u8], number: &i32) -> Option<&'a [u8]>
    ensures { IsRestOfText bytes.now (λ rest. signed_decimal number.now ++ rest) result }
{
    if let Some(left) = after_digits(bytes, number) {
        return Some(left);
    }
    after_it(bytes, Buffer::new().format(*number).as_bytes())
}

/// Returns what is left after `+ PLACED ( x y )` and a space, or `None` if the bytes begin with
/// something else.
fn after_a_point<'a>(bytes: &'a [u8], at: &Location) -> Option<&'a [u8]>
    ensures { IsRestOfText bytes.now (before_orient at.now) result }
{
    let left = after_it(bytes, b"+ PLACED ( ")?;
    let left = after_number(left, &at.x)?;
    let left = after_it(left, b" ")?;
    let left = after_number(left, &at.y)?;
    after_it(left, b" ) ")
}

/// True if the bytes are the clause that is written for the location.
fn is_placed(bytes: &[u8], at: &Location) -> bool
    ensures { result ≡ bytes_eq bytes.now (joined_words (location_clause_words (Some at.now))) }
{
    match after_a_point(bytes, at) {
        Some(orient) => orient == orient_word(at.orient),
        None => false,
    }
}

/// True if the bytes are the clause that is written for the location. Without a location that is
/// `+ UNPLACED`.
pub(crate) fn is_clause_of(bytes: &[u8], location: &Option<Location>) -> bool
    ensures { result ≡ bytes_eq bytes.now (joined_words (location_clause_words location.now)) }
{
    match location {
        Some(at) => is_placed(bytes, at),
        None => bytes == b"+ UNPLACED".as_slice(),
    }
}
