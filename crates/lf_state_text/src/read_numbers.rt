//! The numbers of a state text.

ghost use Rattle.std.specs.Prelude.{◌≡◌, ◌<◌, ◌≤◌, ◌^◌, ◌++◌, ◌<ℤ◌, IfSome, List, Ok, ℕ, drop, length, negsuc, pos, take, true};
ghost use Rattle.std.specs.Char.{is_ascii_digit};
ghost use Rattle.std.specs.List.{list_all};
ghost use Rattle.std.specs.Str.Parse.{digits_value};
ghost use Rattle.lf_proto.specs.Numbers.{coordinate, digits};
ghost use Rattle.lf_state_text.specs.Reading.{number_at};
ghost use Rattle.lf_state_text.specs.Words.{Begins, number};

use lf_proto::digits_of;

/// Returns the number below 2^32 in the word. `None` if it is not one.
pub(crate) fn number_of(word: &[u8]) -> Option<u32>
    ensures { result ≡ number word.now }
{
    u32::try_from(digits_of(word)?).ok()
}

/// Returns the value of the leading digits, at most ten of them, and their count.
fn front_digits(bytes: &[u8]) -> (u64, usize)
    ensures within { result.1 ≤ length bytes.now }
    ensures short { result.1 ≤ 10 }
    ensures digits { list_all is_ascii_digit (take result.1 bytes.now) ≡ true }
    ensures value { result.0 ≡ digits_value 10 (take result.1 bytes.now) }
{
    let most = bytes.len().min(10);
    let mut value = 0u64;
    for len in 0..most {
        let byte = bytes[len];
        if !byte.is_ascii_digit() {
            return (value, len);
        }
        value = value * 10 + u64::from(byte - b'0');
    }
    (value, most)
}

/// Returns the leading number, whose digits `byte` ends, and the bytes after `byte`.
fn front_number(byte: u8, bytes: &[u8]) -> Option<(u64, &[u8])>
    ensures { IfSome result (λ x. Begins digits byte bytes.now x.0 x.1.now) }
{
    let (value, len) = front_digits(bytes);
    if 0 < len && len < bytes.len() && bytes[len] == byte {
        return Some((value, &bytes[len + 1..]));
    }
    None
}

/// Returns the leading number below 2^32, whose digits `byte` ends, and the count of bytes up to
/// and including `byte`.
pub(crate) fn front_u32(byte: u8, bytes: &[u8]) -> Option<(u32, usize)>
    requires { byte < 48 }
    ensures within { IfSome result (λ x. x.1 ≤ length bytes.now) }
    ensures read { IfSome result
        (λ x. (later : List ℕ) → number_at byte (bytes.now ++ later) ≡ Ok (x.0, drop x.1 bytes.now ++ later)) }
{
    let (value, rest) = front_number(byte, bytes)?;
    let number = u32::try_from(value).ok()?;
    Some((number, bytes.len() - rest.len()))
}

/// Returns the number as the size of a coordinate. `None` if it is not below 2^31.
fn size_of(value: u64) -> Option<i32>
    ensures { IfSome result (λ size. (size ≡ pos value) × (value < 2 ^ 31)) }
{
    i32::try_from(value).ok()
}

/// Returns the leading coordinate, which a comma ends, and the bytes after the comma.
pub(crate) fn front_coordinate(bytes: &[u8]) -> Option<(i32, &[u8])>
    ensures value { IfSome result (λ x. Begins coordinate 44 bytes.now x.0 x.1.now) }
    ensures in_def { IfSome result (λ x. negsuc 2147483647 <ℤ x.0) }
{
    match bytes.split_first() {
        Some((b'-', digits)) => {
            let (size, rest) = front_number(b',', digits)?;
            Some((-size_of(size)?, rest))
        }
        _ => {
            let (size, rest) = front_number(b',', bytes)?;
            Some((size_of(size)?, rest))
        }
    }
}
