//! The result of an improvement.

ghost use Rattle.std.specs.Prelude.{◌≡◌};
ghost use Rattle.lf_task_reports.specs.ImproveReports.{improvement_totals, no_improvement, with_improved_team};

use lf_repair_strategy::RepairStats;

/// The result of improving a team.
#[derive(Drop)]
pub struct ImprovedTeam {
    /// The number of the team in the frame. The ground team is the last one.
    pub number: usize,
    /// Whether no improvement was tried: a cell of the team was unplaced or broke a rule, or its
    /// working place was not its committed one.
    pub is_skipped: bool,
    /// The number of the team's cells.
    pub cells: u32,
    /// The displacements of the team's cells.
    pub stats: RepairStats,
}

/// The sums over the teams of an improvement. Displacements are in database units. Sums saturate at
/// the greatest number.
#[derive(Clone, Copy)]
pub(crate) struct ImprovementTotals {
    /// The number of teams.
    pub(crate) teams: u64,
    /// The number of skipped teams.
    pub(crate) skipped: u64,
    /// The number of cells.
    pub(crate) cells: u64,
    /// The number of cells that have another corner.
    pub(crate) moved: u64,
    /// The number of cells that have another orientation.
    pub(crate) turned: u64,
    /// The total displacement of all cells.
    pub(crate) total_displacement: u64,
    /// The longest displacement.
    pub(crate) max_displacement: u64,
}

/// Returns the sums of no team.
fn no_improvement() -> ImprovementTotals
    ensures { result ≡ no_improvement }
{
    ImprovementTotals {
        teams: 0,
        skipped: 0,
        cells: 0,
        moved: 0,
        turned: 0,
        total_displacement: 0,
        max_displacement: 0,
    }
}

/// Returns the sums with those of one more team.
fn with_improved_team(sums: &ImprovementTotals, team: &ImprovedTeam) -> ImprovementTotals
    ensures { result ≡ with_improved_team sums.now team.now }
{
    let stats = &team.stats;
    ImprovementTotals {
        teams: sums.teams.saturating_add(1),
        skipped: sums.skipped.saturating_add(u64::from(team.is_skipped)),
        cells: sums.cells.saturating_add(u64::from(team.cells)),
        moved: sums.moved.saturating_add(u64::from(stats.moved)),
        turned: sums.turned.saturating_add(u64::from(stats.turned)),
        total_displacement: sums
            .total_displacement
            .saturating_add(stats.total_displacement),
        max_displacement: sums.max_displacement.max(stats.max_displacement),
    }
}

/// Returns the sums of these teams.
pub(crate) fn improvement_totals(teams: &[ImprovedTeam]) -> ImprovementTotals
    ensures { result ≡ improvement_totals teams.now }
{
    let mut sums = no_improvement();
    for team in teams {
        sums = with_improved_team(&sums, team);
    }
    sums
}
