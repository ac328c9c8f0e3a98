//! The two ends of names by which patterns with a star are stored.

ghost use Rattle.std.specs.Prelude.{◌≡◌, ◌<◌, ◌≤◌, length, MatchOption};
ghost use Rattle.lf_frame.specs.Ends.{key_of, name_part_at};

use lf_names::Pattern;

/// An end of names. At the front patterns are stored by their prefixes, at the back by their
/// suffixes.
#[derive(Clone, Copy)]
pub enum End {
    Front,
    Back,
}

/// Returns the bytes that each name that matches the pattern has at this end.
pub(crate) fn key_at(end: End, pattern: &[u8]) -> &[u8]
    ensures { result.now ≡ key_of end pattern.now }
{
    match end {
        End::Front => Pattern::new(pattern).prefix(),
        End::Back => Pattern::new(pattern).suffix(),
    }
}

/// Returns the first or last `count` bytes of the name, or `None` if it is shorter.
pub(crate) fn part_at(end: End, name: &[u8], count: usize) -> Option<&[u8]>
    ensures { MatchOption result (length name.now < count)
        (λ part. (count ≤ length name.now) × (part.now ≡ name_part_at end count name.now)) }
{
    match end {
        End::Front => name.get(..count),
        End::Back => {
            let start = name.len().checked_sub(count)?;
            name.get(start..)
        }
    }
}
