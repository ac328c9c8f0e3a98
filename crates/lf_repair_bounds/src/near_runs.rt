//! The widest of the free runs in rows near a point.

ghost use Rattle.std.specs.Prelude.{◌≡◌, ◌-ℤ◌};
ghost use Rattle.std.specs.Int.RustNames.{unsigned_abs};
ghost use Rattle.lf_repair_bounds.specs.NearRuns.{IsLeastDistance, IsWidestNear, run_distance};

use lf_units::Point;

/// The y of a row, and the width of the widest free run in a part of it, in database units.
#[derive(Clone, Copy)]
pub(crate) struct RowRun {
    pub(crate) y: i32,
    pub(crate) width: u64,
}

/// The distance of the row from the target along y.
fn distance(run: &RowRun, target: &Point) -> u64
    ensures { result ≡ run_distance target.now run.now }
{
    i64::from(run.y).abs_diff(target.y)
}

/// The least distance of the rows from the target along y. 0 if there is no row.
fn least_distance(runs: &[RowRun], target: &Point) -> u64
    ensures { IsLeastDistance target.now runs.now result }
{
    let mut least = match runs.first() {
        Some(run) => distance(run, target),
        None => 0,
    };
    for run in runs {
        least = least.min(distance(run, target));
    }
    least
}

/// The width of the widest run of the rows that are at most `far` farther from the target along y
/// than the nearest one. 0 if there is no row.
pub(crate) fn widest_near(runs: &[RowRun], target: &Point, far: u64) -> u64
    ensures { IsWidestNear target.now far runs.now result }
{
    let least = least_distance(runs, target);
    let mut widest: u64 = 0;
    for run in runs {
        if distance(run, target).saturating_sub(least) <= far {
            widest = widest.max(run.width);
        }
    }
    widest
}
