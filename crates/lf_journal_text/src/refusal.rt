//! Why a journal is refused.

ghost use Rattle.std.specs.Prelude.{◌≡◌};
ghost use Rattle.lf_journal_text.specs.Numbers.{refusal_number};

use crate::damage::DamageKind;

/// What is wrong first with a journal.
#[derive(Clone, Copy, Debug, PartialEq, Eq)]
pub enum RefusalKind {
    /// A batch is damaged.
    Damaged(DamageKind),
    /// The journal is that of a floor with another number of session slots.
    OtherSessions,
    /// The journal is that of a design of other texts.
    OtherTexts,
    /// The journal begins with another state.
    OtherState,
    /// The reply to a line is not the recorded one.
    OtherReply,
}

/// Why a journal is refused.
#[derive(Clone, Copy, Debug, PartialEq, Eq)]
pub struct Refusal {
    /// The byte where the damaged batch begins, or the record that is other than it should be.
    pub at: usize,
    pub kind: RefusalKind,
}

impl RefusalKind {
    /// Returns the number that `lefence` prints. Those of damage are up to 32.
    pub fn number(self) -> u8
        ensures { result ≡ refusal_number self }
    {
        match self {
            RefusalKind::Damaged(kind) => kind.number(),
            RefusalKind::OtherTexts => 36,
            RefusalKind::OtherSessions => 37,
            RefusalKind::OtherState => 38,
            RefusalKind::OtherReply => 39,
        }
    }
}
