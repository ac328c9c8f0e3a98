//! The session slots of a team.

ghost use Rattle.std.specs.Prelude.{◌≡◌, ◌≤◌};

/// The most session slots of a team.
pub(crate) const MOST_SLOTS: u32 = 64;

/// The number of session slots of each team, which is the most sessions it may have open at a time.
#[derive(Clone, Copy, Debug, PartialEq, Eq)]
pub struct Slots {
    pub number: u32,
    pub ghost least: { 1 ≤ number },
    pub ghost most: { number ≤ 64 },
}

impl Slots {
    /// Returns the default number of slots, 8.
    pub fn standard() -> Self
        ensures { result.number ≡ 8 }
    {
        Slots { number: 8 }
    }
}
