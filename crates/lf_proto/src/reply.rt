//! Replies to a session.

ghost use Rattle.std.specs.Prelude.{◌≡◌, string_bytes};

use lf_floorplan::Place;
use lf_rules::Rule;
use std::marker::Model;

/// A text in a reply, of any bytes. Contracts see its bytes.
#[derive(Drop)]
pub struct Text {
    bytes: Vec<u8>,
}

impl Model for Text {
    ghost use Rattle.std.specs.Prelude.{List, ℕ};

    ghost Value = { List ℕ };

    ghost view = { λ t. t.bytes.items };
}

impl Text {
    /// Makes the text of a string, without a copy.
    pub fn from_string(text: String) -> Self
        ensures { result ≡ string_bytes text }
    {
        Text {
            bytes: text.into_bytes(),
        }
    }

    /// Makes the text of these bytes, without a copy.
    pub fn from_bytes(bytes: Vec<u8>) -> Self
        ensures { result ≡ bytes.items }
    {
        Text { bytes }
    }

    /// Returns the bytes.
    pub fn as_bytes(&self) -> &[u8]
        ensures { result.now ≡ self.now }
    {
        self.bytes.as_slice()
    }
}

/// The reply to one command. A cell is named by its position among its team's cells, in loading
/// order.
#[derive(Drop)]
pub enum Reply {
    /// The command was accepted, and there is no value to return.
    Done,
    /// The session that was opened, and the team's revision, which it has seen.
    Opened { session: u32, revision: u32 },
    /// The team's revision.
    Revision(u32),
    /// The working place of a cell, or its best place, in database units.
    At(Place),
    /// The team's revision after a change, and the new place of the cell.
    Legalized { revision: u32, place: Place },
    /// The team's revision after a tidy, and the number of cells moved to their best place.
    Tidied { revision: u32, moved: u32 },
    /// The report of the team's cells, as JSON.
    Report(Text),
    /// The team's DEF text.
    Def(Text),
    /// Nothing was done.
    Refused(Refusal),
}

/// Why a command was refused.
#[derive(Clone, Copy, Debug, PartialEq, Eq)]
pub enum Refusal {
    /// The line is no request.
    BadRequest,
    /// No team has that name.
    NoTeam,
    /// No open session of the team has that number.
    NoSession,
    /// The session has not seen the team's revision, which is this one.
    Stale {
        revision: u32,
    },
    /// The team has no cell of that name.
    NoCell,
    /// The cell has no working place.
    Unplaced {
        cell: u32,
    },
    /// The place breaks this rule first; for `Overlap` the other cell is the first one that it
    /// conflicts with.
    Illegal {
        rule: Rule,
        cell: u32,
        other: Option<u32>,
    },
    /// No place is team-legal for the cell.
    NoPlace {
        cell: u32,
    },
    /// The team has no undo entry.
    NothingToUndo,
    /// The team has no free session slot.
    SessionsFull,
    /// The team's revision is at its limit.
    RevisionsSpent,
    /// An allocation failed during the command, and nothing has changed.
    OutOfMemory,
}
