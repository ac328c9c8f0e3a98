//! Queries of the teams of a floor by their numbers: what a search for places reads, and which
//! cells are legal.

ghost use Rattle.std.specs.Prelude.{◌≡◌, ◌<◌, ℕ, IsTrue, Some, length, map, slice_get};
ghost use Rattle.lf_rules.specs.Team.{IsLegalCell};
ghost use Rattle.lf_cells.specs.Cells.{cells_of};
ghost use Rattle.lf_legalize.specs.Members.{member_of};
ghost use Rattle.lf_floor_model.specs.States.{TeamState};
ghost use Rattle.lf_floor_model.specs.Teams.{team_number};

use crate::floor::{Floor, team_with_name};
use lf_floor_verbs::is_cell_legal;
use lf_legalize::Seeker;
use lf_placement::Placement;
use lf_rules::Padding;

impl<S: Seeker + Drop> Floor<S> {
    /// Returns the number of the team of that name: the fence teams in the frame's order, then `-`.
    /// `None` if no team has the name.
    pub fn team_number(&self, team: &[u8]) -> Option<usize>
        ensures { result ≡ team_number self.now.frame team.now }
    {
        team_with_name(self.tables.placement.frame(), team)
    }

    /// The frame, and the cells of all teams at their places.
    pub fn placement(&self) -> &Placement
        ensures frame { result.now.frame ≡ self.now.frame }
        ensures cells { (number : ℕ) (s : TeamState) → slice_get self.now.teams number ≡ Some s
            → cells_of result.now.cells number ≡ s.cells }
    {
        &self.tables.placement
    }

    /// Returns the least distance between the cells of the team of that number, in core sites.
    pub fn padding_of(&self, number: usize) -> Padding
        ensures { (s : TeamState) → slice_get self.now.teams number ≡ Some s → result.sites ≡ s.padding }
    {
        self.tables.padding(number)
    }

    /// Returns the number of changes that the team of that number has made.
    pub fn revision_of(&self, number: usize) -> u32
        ensures { (s : TeamState) → slice_get self.now.teams number ≡ Some s → result ≡ s.revision }
    {
        self.tables.revision(number)
    }

    /// Returns true if the team of that number has a cell at that position in loading order, the
    /// first at 0, which is placed and team-legal. Does not allocate.
    pub fn is_cell_legal(&self, number: usize, own: usize) -> bool
        ensures legal { (s : TeamState) → slice_get self.now.teams number ≡ Some s
            → IsTrue result → IsLegalCell self.now.frame number s.padding (map member_of s.cells) own }
        ensures reported { (s : TeamState) → slice_get self.now.teams number ≡ Some s → own < length s.cells
            → IsLegalCell self.now.frame number s.padding (map member_of s.cells) own → IsTrue result }
    {
        let Some(id) = self.tables.cell_at(number, own) else {
            return false;
        };
        is_cell_legal(&self.tables.placement, id, self.tables.padding(number))
    }
}
