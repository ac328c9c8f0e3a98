//! The names and limits of a design.

ghost use Rattle.std.specs.Prelude.{◌≡◌, length, option_map, slice_get, slice_index_or, []};
ghost use Rattle.lf_state_text.specs.Designs.{named_team_of};

use lf_floorplan::Limits;

/// A design whose teams are in a state text: their names, the names of their cells, and its limits.
pub trait DesignSchema {
    ghost use Rattle.lf_state_text.specs.Designs.{NamedDesign};

    /// The design by its names.
    ghost named: { Self → NamedDesign };

    /// Returns its limits.
    fn limits(&self) -> Limits
        ensures { result ≡ (named self.now).limits };

    /// Returns the number of its teams.
    fn team_count(&self) -> usize
        ensures { result ≡ length (named self.now).teams };

    /// Returns the name of a team. `None` if and only if there is no such team.
    fn team_name(&self, team: usize) -> Option<&[u8]>
        ensures { option_map (λ name. name.now) result
            ≡ option_map (λ t. t.name) (slice_get (named self.now).teams team) };

    /// Returns the number of a team's cells; 0 if there is no such team.
    fn cell_count(&self, team: usize) -> usize
        ensures { result ≡ length (named_team_of (named self.now) team).cells };

    /// Returns the name of a team's cell. `None` if and only if there is no such cell.
    fn cell_name(&self, team: usize, own: usize) -> Option<&[u8]>
        ensures { option_map (λ name. name.now) result ≡ slice_get (named_team_of (named self.now) team).cells own };
}

/// Returns the name of a team. Empty if there is no such team.
pub(crate) fn name_of_team<D: DesignSchema>(design: &D, team: usize) -> &[u8]
    ensures { result.now ≡ (named_team_of (D.named design.now) team).name }
{
    match design.team_name(team) {
        Some(name) => name,
        None => b"",
    }
}

/// Returns the name of a team's cell. Empty if there is no such cell.
pub(crate) fn name_of_cell<D: DesignSchema>(design: &D, team: usize, own: usize) -> &[u8]
    ensures { result.now ≡ slice_index_or (named_team_of (D.named design.now) team).cells own [] }
{
    match design.cell_name(team, own) {
        Some(name) => name,
        None => b"",
    }
}
