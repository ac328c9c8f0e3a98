//! The teams to be written into a state text.

ghost use Rattle.std.specs.Prelude.{◌≡◌, length, option_map, slice_get};
ghost use Rattle.lf_state_text.specs.Saved.{moves_within, saved_at};

use crate::saved_rows::SavedCell;
use lf_rules::Padding;
use lf_undo::Moves;

/// The teams of a design with their present state, to be written into a state text.
///
/// A team that does not exist has revision 0 and padding 0, and no slots, cells or undo entries.
pub trait TeamViews {
    ghost use Rattle.std.specs.Prelude.{List};
    ghost use Rattle.lf_state_text.specs.Saved.{SavedTeam};

    /// The saved teams.
    ghost saved: { Self → List SavedTeam };

    /// Returns the number of changes that the team has made.
    fn revision(&self, team: usize) -> u32
        ensures { result ≡ (saved_at (saved self.now) team).revision };

    /// Returns the least distance between the team's cells, in core sites.
    fn padding(&self, team: usize) -> Padding
        ensures { result.sites ≡ (saved_at (saved self.now) team).padding };

    /// Returns for each session slot of the team the revision that its session has seen; `None` if
    /// the slot is free.
    fn slots(&self, team: usize) -> &[Option<u32>]
        ensures { result.now ≡ (saved_at (saved self.now) team).slots };

    /// Returns the number of the team's cells.
    fn cell_count(&self, team: usize) -> usize
        ensures { result ≡ length (saved_at (saved self.now) team).cells };

    /// Returns the places of the team's cell at that position in loading order. `None` if and only
    /// if there is no such cell.
    fn cell(&self, team: usize, own: usize) -> Option<SavedCell>
        ensures { result ≡ slice_get (saved_at (saved self.now) team).cells own };

    /// Returns the number of the team's undo entries.
    fn entry_count(&self, team: usize) -> usize
        ensures { result ≡ length (saved_at (saved self.now) team).entries };

    /// Returns the moves of the team's undo entry that has `newer` newer ones. `None` if and only
    /// if there is no such entry. Moves of no cell of the team are not written.
    fn entry(&self, team: usize, newer: usize) -> Option<&Moves>
        ensures { option_map (λ moves. moves_within (length (saved_at (saved self.now) team).cells) moves.now) result
            ≡ slice_get (saved_at (saved self.now) team).entries newer };
}
