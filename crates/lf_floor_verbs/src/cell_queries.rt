//! Broken rules and best places of a team's own cells.

ghost use Rattle.std.specs.Prelude.{◌≡◌, IfOk, count_by, is_none, option_map};
ghost use Rattle.lf_rules.specs.Choice.{spot_of};
ghost use Rattle.lf_rules.specs.Legalizer.{Legalizer};
ghost use Rattle.lf_cells.specs.Cells.{cells_of, working_at};
ghost use Rattle.lf_legalize.specs.Members.{best_of};
ghost use Rattle.lf_floor_model.specs.Teams.{broken_at, team_rules};
ghost use Rattle.lf_floor_model.specs.Queries.{best_at};
ghost use Rattle.lf_floor_model.specs.Changes.{broken_where, first_unplaced};
ghost use Rattle.lf_floor_verbs.specs.Tables.{context_at};

use crate::context::TeamContext;
use lf_cells::{CellId, CellTable};
use lf_floorplan::Place;
use lf_legalize::Seeker;
use lf_placement::Placement;
use lf_rules::{Broken, Padding, verdict_is_unique};
use lf_units::Point;
use std::alloc::AllocError;

/// Returns the first rule that the cell breaks at the place, among the other cells of its team with
/// this padding. `None` if it breaks no rule, or there is no such cell. Does not allocate.
pub(crate) fn broken_at(
    placement: &Placement,
    id: CellId,
    place: &Place,
    padding: Padding,
) -> Option<Broken>
    ensures { (l : Legalizer) → result
        ≡ broken_at (team_rules l placement.now.frame id.team padding.sites)
        (cells_of placement.now.cells id.team) id.own place.now }
{
    verdict_is_unique();
    placement.cells_are_sized();
    placement.first_broken(id, place, padding)
}

/// Returns the first rule that the cell breaks at its working place, among the other cells of its
/// team with this padding. `None` if it breaks no rule or is unplaced, or if there is no such cell.
/// Does not allocate.
pub(crate) fn broken_where(placement: &Placement, id: CellId, padding: Padding) -> Option<Broken>
    ensures { (l : Legalizer) → result
        ≡ broken_where (team_rules l placement.now.frame id.team padding.sites)
        (cells_of placement.now.cells id.team) id.own }
{
    let place = placement.cells().working(id)?;
    broken_at(placement, id, &place, padding)
}

/// Returns the best place of the team's cell for a target. `None` if it has no best place.
///
/// `Err` if an allocation fails.
pub(crate) fn best_place<S: Seeker>(
    context: &TeamContext<'_, S>,
    placement: &Placement,
    id: CellId,
    target: &Point,
) -> Result<Option<Place>, AllocError>
    requires team { id.team ≡ context.now.number }
    ensures best { (l : Legalizer) → IfOk result (λ found. found
        ≡ best_at (context_at l context.now placement.now)
        (cells_of placement.now.cells context.now.number) id.own target.now) }
    ensures spot { (l : Legalizer) → IfOk result (λ found. option_map spot_of found
        ≡ best_of l placement.now.frame context.now.number context.now.padding.sites
        (cells_of placement.now.cells context.now.number) id.own target.now) }
{
    placement.best_place(context.alloc, context.seeker, id, target, context.padding)
}

/// Returns the position of the team's first unplaced cell, in loading order. `None` if every cell
/// is placed. Does not allocate.
pub(crate) fn first_unplaced(cells: &CellTable, number: usize) -> Option<u32>
    ensures { result ≡ first_unplaced (cells_of cells.now number) }
{
    for id in cells.cells_of(number) {
        if is_unplaced(cells, *id) {
            return Some(id.own);
        }
    }
    None
}

/// Returns the number of the team's unplaced cells.
pub(crate) fn unplaced_in(cells: &CellTable, number: usize) -> usize
    ensures { result ≡ count_by (λ c. is_none c.working) (cells_of cells.now number) }
{
    let mut unplaced = 0;
    for id in cells.cells_of(number) {
        if is_unplaced(cells, *id) {
            unplaced += 1;
        }
    }
    unplaced
}

/// Returns true if the cell is unplaced.
pub(crate) fn is_unplaced(cells: &CellTable, id: CellId) -> bool
    ensures { result ≡ is_none (working_at (cells_of cells.now id.team) id.own) }
{
    cells.working(id).is_none()
}
