//! The gaps of unrepaired cells.

ghost use Rattle.std.specs.Prelude.{IfOk};
ghost use Rattle.lf_repair_bounds.specs.Gaps.{place_at};
ghost use Rattle.lf_task_reports.specs.RepairReports.{AreGapsIn};

use lf_floor::Floor;
use lf_floorplan::Place;
use lf_legalize::Seeker;
use lf_repair_bounds::widest_gaps;
use std::alloc::{AllocError, Global};

/// The gaps of the team's cells at these positions on the floor, in database units: for each cell
/// the width of the widest free run of sites in the rows near its old place. `old_places` has the place
/// from which each cell of the team was to move, in loading order. Empty if no team has the name.
/// `Err` if an allocation fails.
pub(crate) fn gaps_near<S: Seeker + Drop>(
    alloc: Global,
    floor: &Floor<S>,
    team: &[u8],
    old_places: &[Option<Place>],
    owns: &[u32],
) -> Result<Vec<u64>, AllocError>
    ensures { IfOk result (λ gaps. AreGapsIn floor.now team.now (place_at old_places.now) owns.now gaps.items) }
{
    let Some(number) = floor.team_number(team) else {
        return Ok(Vec::new(alloc));
    };
    widest_gaps(
        alloc,
        floor.placement(),
        number,
        floor.padding_of(number),
        old_places,
        owns,
    )
}
