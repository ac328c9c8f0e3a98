//! Patterns, and the names that they match.

ghost use Rattle.std.specs.Prelude.{◌≡◌, ◌≢◌, ◌<◌, ◌↔◌, ℕ, List, ◌∷◌, ◌++◌, length, map, IsTrue, IfSome, MatchOption};
ghost use Rattle.lf_names.specs.Pattern.{byte, star, parts_of, prefix_of, suffix_of, Becomes, Matches, IsLiteral};
ghost use Rattle.lf_names.specs.Places.{IsAfterFirst};

use std::marker::Model;

/// A pattern of names, as a DEF GROUPS entry lists them. `*` matches any run of bytes, including
/// the empty one. A `*` directly after a backslash is an ordinary byte, and so is every backslash:
/// `a\*` matches only these three bytes.
#[derive(Drop)]
pub struct Pattern<'a> {
    bytes: &'a [u8],
}

impl<'a> Model for Pattern<'a> {
    ghost use Rattle.std.specs.Prelude.{List, ℕ};

    ghost Value = { List ℕ };

    ghost view = { λ p. p.bytes.now };
}

impl<'a> Pattern<'a> {
    /// Returns the pattern with these bytes. Any bytes are a pattern.
    pub fn new(bytes: &'a [u8]) -> Self
        ensures { result ≡ bytes.now }
    {
        Pattern { bytes }
    }

    /// True if the pattern has no star. It then matches only its own bytes.
    pub fn is_literal(&self) -> bool
        ensures literal { IsTrue result ↔ IsLiteral self.now }
        ensures own_bytes { IsTrue result → (name : List ℕ) → (Matches self.now name ↔ (name ≡ self.now)) }
    {
        split_at_star(self.bytes).is_none()
    }

    /// Returns the bytes in front of the first star, or all bytes if there is no star. Each name
    /// that matches begins with them.
    pub fn prefix(&self) -> &'a [u8]
        ensures prefix { result.now ≡ prefix_of self.now }
        ensures begins { (name : List ℕ) → Matches self.now name → (rest : List ℕ) × (name ≡ result.now ++ rest) }
    {
        match split_at_star(self.bytes) {
            Some((before, _)) => before,
            None => self.bytes,
        }
    }

    /// Returns the bytes after the last star, or all bytes if there is no star. Each name that
    /// matches ends with them.
    pub fn suffix(&self) -> &'a [u8]
        ensures suffix { result.now ≡ suffix_of self.now }
        ensures ends { (name : List ℕ) → Matches self.now name → (run : List ℕ) × (name ≡ run ++ result.now) }
    {
        after_last_star(self.bytes)
    }

    /// True if the pattern becomes the name when each of its stars is replaced by a run of bytes,
    /// perhaps empty. Allocates nothing. The time is at most proportional to the product of the
    /// lengths of name and pattern.
    pub fn matches(&self, name: &[u8]) -> bool
        ensures { IsTrue result ↔ Matches self.now name.now }
    {
        denotes(self.bytes, name)
    }
}

/// Implements `Pattern::matches`. Up to the first star the name must agree byte for byte.
fn denotes(pattern: &[u8], name: &[u8]) -> bool
    ensures { IsTrue result ↔ Matches pattern.now name.now }
{
    let Some((piece, after_it)) = split_at_star(pattern) else {
        return pattern == name;
    };
    match name.strip_prefix(piece) {
        Some(rest) => denotes_an_end(after_it, rest),
        None => false,
    }
}

/// True if some end of the name matches the pattern. The bytes between two stars are matched at
/// their first occurrence, which leaves the most bytes to the later stars.
fn denotes_an_end(pattern: &[u8], name: &[u8]) -> bool
    ensures { IsTrue result ↔ Becomes (star ∷ parts_of pattern.now) name.now }
{
    let mut remaining_pattern = pattern;
    let mut remaining_name = name;
    while let Some((piece, after_it)) = split_at_star(remaining_pattern) {
        let Some(after) = after_the_first(remaining_name, piece) else {
            return false;
        };
        remaining_pattern = after_it;
        remaining_name = after;
    }
    remaining_name.ends_with(remaining_pattern)
}

/// Returns the bytes in front of the pattern's first star, and the pattern after it. `None` if
/// there is no star.
fn split_at_star(pattern: &[u8]) -> Option<(&[u8], &[u8])>
    ensures parts { MatchOption result (IsLiteral pattern.now)
        (λ p. parts_of pattern.now ≡ map byte p.0.now ++ star ∷ parts_of p.1.now) }
    ensures shorter { IfSome result (λ p. length p.1.now < length pattern.now) }
{
    let mut escaped = false;
    for (at, &byte) in pattern.iter().enumerate() {
        if byte == b'*' && !escaped {
            return Some((&pattern[..at], &pattern[at + 1..]));
        }
        escaped = byte == b'\\';
    }
    None
}

/// Returns the bytes after the pattern's last star, or all bytes if there is no star.
fn after_last_star(pattern: &[u8]) -> &[u8]
    ensures { result.now ≡ suffix_of pattern.now }
{
    let mut remaining = pattern;
    while let Some((_, after_it)) = split_at_star(remaining) {
        remaining = after_it;
    }
    remaining
}

/// Returns the rest of the name after the first occurrence of the piece. `None` if the piece does
/// not occur.
fn after_the_first<'x>(name: &'x [u8], piece: &[u8]) -> Option<&'x [u8]>
    ensures { MatchOption result ((before rest : List ℕ) → name.now ≢ before ++ (piece.now ++ rest))
        (λ rest. IsAfterFirst name.now piece.now rest.now) }
{
    let mut end = name;
    loop {
        if let Some(rest) = end.strip_prefix(piece) {
            return Some(rest);
        }
        let (_, shorter) = end.split_first()?;
        end = shorter;
    }
}
