//! The numbers of a line.

ghost use Rattle.std.specs.Prelude.{◌≡◌, ◌≤◌, ◌<ℤ◌, IfSome, length, negsuc, true};
ghost use Rattle.std.specs.Char.{is_ascii_digit};
ghost use Rattle.std.specs.List.{list_all};
ghost use Rattle.std.specs.Str.Parse.{digits_value};
ghost use Rattle.lf_proto.specs.Numbers.{coordinate, digits, padding, session_number};

use lf_rules::Padding;

/// Returns true if each byte is a digit.
fn are_digits(word: &[u8]) -> bool
    ensures { result ≡ list_all is_ascii_digit word.now }
{
    word.iter().all(|byte| byte.is_ascii_digit())
}

/// Returns the value of at most ten digits.
fn value_of(digits: &[u8]) -> u64
    requires digits { list_all is_ascii_digit digits.now ≡ true }
    requires short { length digits.now ≤ 10 }
    ensures { result ≡ digits_value 10 digits.now }
{
    let mut value = 0u64;
    for digit in digits {
        value = value * 10 + u64::from(*digit - b'0');
    }
    value
}

/// Returns the value of one to ten digits. `None` for another word.
pub fn digits_of(word: &[u8]) -> Option<u64>
    ensures { result ≡ digits word.now }
{
    if word.is_empty() || word.len() > 10 || !are_digits(word) {
        return None;
    }
    Some(value_of(word))
}

/// Returns the session number in the word. `None` if it is not one.
pub(crate) fn session_of(word: &[u8]) -> Option<u32>
    ensures { result ≡ session_number word.now }
{
    u32::try_from(digits_of(word)?).ok()
}

/// Returns the padding in the word, in core sites. `None` if it is not one.
pub(crate) fn padding_of(word: &[u8]) -> Option<Padding>
    ensures { result ≡ padding word.now }
{
    let sites = u32::try_from(digits_of(word)?).ok()?;
    Padding::new(sites)
}

/// Returns the coordinate in the word, in database units. `None` if it is not one.
pub(crate) fn coordinate_of(word: &[u8]) -> Option<i32>
    ensures value { result ≡ coordinate word.now }
    ensures in_def { IfSome result (λ z. negsuc 2147483647 <ℤ z) }
{
    match word.split_first() {
        Some((b'-', rest)) => Some(-i32::try_from(digits_of(rest)?).ok()?),
        _ => i32::try_from(digits_of(word)?).ok(),
    }
}
