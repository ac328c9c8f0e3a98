//! Sums over the teams of a repair.

ghost use Rattle.std.specs.Prelude.{◌≡◌};
ghost use Rattle.lf_task_reports.specs.RepairReports.{mean_displacement, no_sums, totals_with_team};

use lf_repair_strategy::RepairStats;

/// The sums over all teams in the report. Lengths are in database units. Sums saturate at the
/// greatest number.
#[derive(Clone, Copy)]
pub struct Totals {
    /// The number of teams.
    pub teams: u64,
    /// The number of cells that broke a rule or had no place.
    pub cells: u64,
    /// The number of legal cells that did not move.
    pub kept: u64,
    /// The number of cells that had a place and now have another corner.
    pub moved: u64,
    /// The number of cells that had no place and have one now.
    pub placed: u64,
    /// The number of legal cells whose place or orientation changed.
    pub displaced_legal: u64,
    /// The number of cells that had a place and now have another orientation.
    pub turned: u64,
    /// The number of unrepaired cells: those that are unplaced or break a rule.
    pub unrepaired: u64,
    /// The total displacement of all cells.
    pub total_displacement: u64,
    /// The longest displacement.
    pub max_displacement: u64,
    /// The largest of the least displacements of all teams' cells.
    pub least_largest: u64,
}

/// The sums of no team.
pub(crate) fn none() -> Totals
    ensures { result ≡ no_sums }
{
    Totals {
        teams: 0,
        cells: 0,
        kept: 0,
        moved: 0,
        placed: 0,
        displaced_legal: 0,
        turned: 0,
        unrepaired: 0,
        total_displacement: 0,
        max_displacement: 0,
        least_largest: 0,
    }
}

/// The sums with those of one more team, given the largest of the least displacements of its cells.
pub(crate) fn with_one(sums: &Totals, repaired: &RepairStats, least: u64) -> Totals
    ensures { result ≡ totals_with_team sums.now repaired.now least }
{
    Totals {
        teams: sums.teams.saturating_add(1),
        cells: sums.cells.saturating_add(u64::from(repaired.cells)),
        kept: sums.kept.saturating_add(u64::from(repaired.kept)),
        moved: sums.moved.saturating_add(u64::from(repaired.moved)),
        placed: sums.placed.saturating_add(u64::from(repaired.placed)),
        displaced_legal: sums
            .displaced_legal
            .saturating_add(u64::from(repaired.displaced_legal)),
        turned: sums.turned.saturating_add(u64::from(repaired.turned)),
        unrepaired: sums
            .unrepaired
            .saturating_add(repaired.unrepaired.len() as u64),
        total_displacement: sums
            .total_displacement
            .saturating_add(repaired.total_displacement),
        max_displacement: sums.max_displacement.max(repaired.max_displacement),
        least_largest: sums.least_largest.max(least),
    }
}

/// Returns the mean displacement of the cells that moved, rounded down. 0 if no cell moved.
pub fn mean_displacement(total: u64, moved: u64) -> u64
    ensures { result ≡ mean_displacement total moved }
{
    if moved == 0 {
        return 0;
    }
    total / moved
}
