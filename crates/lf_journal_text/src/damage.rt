//! Damage: where a segment of a journal is neither whole nor torn, and what is wrong there.

ghost use Rattle.std.specs.Prelude.{◌≡◌};
ghost use Rattle.lf_journal_text.specs.Numbers.{number_of};

/// What is wrong first with the batch at a place.
#[derive(Clone, Copy, Debug, PartialEq, Eq)]
pub enum DamageKind {
    /// Its gate is zero, although it is not the last batch.
    BadGate,
    /// Its two lengths are not the same number.
    BadLength,
    /// Its time is not a number of 13 digits.
    BadTime,
    /// Its sum is not that of its bytes, or one of them is zero.
    BadSum,
    /// It is whole, but its bytes are not records of three lines.
    BadRecord,
    /// It is the first batch, and not the beginning of a segment of version 4.
    OtherVersion,
}

/// The first damage of a segment.
#[derive(Clone, Copy, Debug, PartialEq, Eq)]
pub struct Damage {
    /// The byte where the batch begins.
    pub at: usize,
    pub kind: DamageKind,
}

impl DamageKind {
    /// Returns the number that `lefence` prints. Those of a state text are up to 27.
    pub fn number(self) -> u8
        ensures { result ≡ number_of self }
    {
        match self {
            DamageKind::OtherVersion => 25,
            DamageKind::BadGate => 28,
            DamageKind::BadLength => 29,
            DamageKind::BadTime => 30,
            DamageKind::BadSum => 31,
            DamageKind::BadRecord => 32,
        }
    }
}
