//! The bytes that end words.

ghost use Rattle.std.specs.Prelude.{◌≡◌, ◌≤◌};
ghost use Rattle.lf_state_text.specs.WordEnds.{end_byte};

/// What ends a word: a space, or the line feed at the end of its line.
#[derive(Clone, Copy)]
pub(crate) enum WordEnd {
    Space,
    LineFeed,
}

impl WordEnd {
    /// Returns the byte.
    pub(crate) fn byte(self) -> u8
        ensures is { result ≡ end_byte self }
        ensures low { result ≤ 32 }
    {
        match self {
            WordEnd::Space => b' ',
            WordEnd::LineFeed => b'\n',
        }
    }
}
