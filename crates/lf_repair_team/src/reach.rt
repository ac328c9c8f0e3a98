//! The reach of a repair: the longest displacement of a cell that had a place.

ghost use Rattle.std.specs.Prelude.{◌≡◌, ◌≢◌, ◌≤◌, ◌↔◌, ◌<◌, ◌<ℤ◌, IfOk, IsTrue, None, Some, false, map, option_map, pos, slice_get};
ghost use Rattle.lf_floorplan.specs.declared.place.Place.{Place};
ghost use Rattle.lf_floor_model.specs.States.{TeamState};
ghost use Rattle.lf_floor_model.specs.Teams.{state_of, team_number};
ghost use Rattle.lf_cells.specs.declared.cell.Cell.{Cell};
ghost use Rattle.lf_legalize.specs.Members.{member_of};
ghost use Rattle.lf_proto.specs.Requests.{IsTarget};
ghost use Rattle.lf_repair_strategy.specs.Targets.{target_at};
ghost use Rattle.lf_repair_team.specs.CellEdits.{BestIsWithin, IsWithin, IsWithoutPlace};
ghost use Rattle.lf_repair_team.specs.TeamRepairs.{IsBeyond, corner_of, place_of_cell_in, way_to};
ghost use Rattle.lf_rules.specs.Choice.{IsChoice, distance, spot_of};
ghost use Rattle.lf_rules.specs.Team.{query_from};

use crate::cell_edits::TeamSession;
use crate::outcome::target_place;
use lf_floor::Floor;
use lf_floorplan::Place;
use lf_legalize::{IndexSeeker, Seeker};
use lf_repair_strategy::RepairSearch;
use lf_rules::legalizer_exists;
use lf_units::Point;
use std::alloc::{AllocError, Global};

/// The corner of the place.
pub(crate) fn corner_of(place: &Place) -> Point
    ensures corner { result ≡ corner_of place.now }
    ensures target { IsTarget result }
{
    Point {
        x: place.x as i64,
        y: place.y as i64,
    }
}

/// |dx| + |dy| between two places.
fn way_between(from: &Place, to: &Place) -> u64
    ensures way { result ≡ distance (corner_of from.now) (spot_of to.now) }
    ensures short { result ≤ 8589934590 }
{
    u64::from(to.x.abs_diff(from.x)) + u64::from(to.y.abs_diff(from.y))
}

/// Whether the way is longer than the reach, and not 0.
fn is_longer(reach: i64, way: u64) -> bool
    requires { way ≤ 8589934590 }
    ensures { IsTrue result ↔ ((0 < way) × (reach <ℤ pos way)) }
{
    0 < way && reach < way as i64
}

/// Whether the place is beyond reach of the place that the cell had. False if it had none.
fn is_beyond(search: &RepairSearch<'_>, old: Option<Place>, place: &Place) -> bool
    ensures { IsTrue result ↔ IsBeyond search.now.reach (way_to old (spot_of place.now)) }
{
    let Some(reach) = search.reach else {
        return false;
    };
    let Some(old) = old else {
        return false;
    };
    is_longer(reach, way_between(&old, place))
}

/// Whether the cell at position `own` is beyond reach of its place in `targets`.
pub(crate) fn has_moved_too_far<S: Seeker + Drop>(
    floor: &Floor<S>,
    session: &TeamSession<'_>,
    own: usize,
    targets: &[Option<Place>],
    search: &RepairSearch<'_>,
) -> bool
    ensures moved { IsTrue result → place_of_cell_in floor.now session.now.team.now own ≢ target_at targets.now own }
    ensures within { result ≡ false → IsWithin search.now.reach targets.now floor.now session.now.team.now own }
{
    match floor.place_of(session.team, own) {
        Some(place) => is_beyond(search, target_place(targets, own), &place),
        None => false,
    }
}

/// The best place of the team's cell at position `own` for the target. `None` if it has none.
fn best_place_of<S: Seeker + Drop>(
    alloc: Global,
    floor: &Floor<S>,
    number: usize,
    own: usize,
    target: &Point,
) -> Result<Option<Place>, AllocError>
    ensures { (s : TeamState) (c : Cell) → slice_get floor.now.teams number ≡ Some s → slice_get s.cells own ≡ Some c
        → IfOk result (λ found.
        IsChoice (query_from floor.now.frame number s.padding (map member_of s.cells) own c.mac) target.now
        (option_map spot_of found)) }
{
    legalizer_exists();
    floor.teams_match_frame();
    let placement = floor.placement();
    let Some(id) = placement.cells().cell_of(number, own) else {
        return Ok(None);
    };
    let seeker = IndexSeeker::build(alloc, placement.frame())?;
    placement.best_place(alloc, &seeker, id, target, floor.padding_of(number))
}

/// Whether the best place of the cell at position `own`, which is unplaced, is within reach of its
/// place in `targets`. The target is the corner of that place. True without a search if there is no
/// reach, or the cell had no place.
pub(crate) fn is_best_within<S: Seeker + Drop>(
    alloc: Global,
    floor: &Floor<S>,
    session: &TeamSession<'_>,
    own: usize,
    targets: &[Option<Place>],
    search: &RepairSearch<'_>,
    target: &Point,
) -> Result<bool, AllocError>
    requires number { team_number floor.now.frame session.now.team.now ≡ Some session.now.number }
    requires target { (p : Place) → target_at targets.now own ≡ Some p → target.now ≡ corner_of p }
    ensures near { IfOk result (λ is_near. IsTrue is_near
        → BestIsWithin search.now.reach targets.now floor.now session.now.team.now own target.now) }
    ensures none { (s : TeamState) (c : Cell) → state_of floor.now session.now.team.now ≡ Some s
        → slice_get s.cells own ≡ Some c → c.working ≡ None
        → IfOk result (λ is_near. is_near ≡ false
        → IsWithoutPlace search.now.reach targets.now floor.now session.now.team.now own) }
{
    match search.reach {
        Some(_) => {}
        None => return Ok(true),
    }
    let Some(old) = target_place(targets, own) else {
        return Ok(true);
    };
    match best_place_of(alloc, floor, session.number, own, target)? {
        Some(best) => Ok(!is_beyond(search, Some(old), &best)),
        None => Ok(false),
    }
}
