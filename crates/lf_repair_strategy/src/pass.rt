//! A team at the start of its repair: its locked cells, and the places of all.

ghost use Rattle.std.specs.Prelude.{◌≡◌, IfOk};
ghost use Rattle.lf_cells.specs.Cells.{cells_of};
ghost use Rattle.lf_repair_strategy.specs.Targets.{AreWorkingPlaces};

use crate::free_space::is_soft_at;
use crate::rounds::width_of;
use lf_cells::CellId;
use lf_floorplan::Place;
use lf_placement::Placement;
use std::alloc::{AllocError, Global};

/// The cells of a team that a repair may move.
#[derive(Clone, Copy, Debug, PartialEq, Eq)]
pub enum MovePolicy {
    /// Those that break a rule or have no place.
    KeepLegal,
    /// Those that break a rule or have no place. Other cells of one row's height may move if one of
    /// the former would otherwise have no place or a long displacement.
    MoveAsNeeded,
    /// Those that break a rule or have no place. In the end also all other cells of one row's
    /// height, if that makes the total displacement less.
    MoveAll,
}

/// One pass over a team. `locked` says whether each cell is locked, `impossible` whether no place
/// can hold it, and `targets` has its target place. In the first pass this is the cell's original
/// place, or `None` if it had none. The lists are indexed by the cell's position in loading order.
/// A cell that is locked or that no place can hold does not move.
#[derive(Drop)]
pub struct Pass {
    pub locked: Vec<bool>,
    pub impossible: Vec<bool>,
    pub targets: Vec<Option<Place>>,
}

impl Pass {
    /// Whether no place can hold the cell at position `own`.
    pub(crate) fn is_impossible(&self, own: usize) -> bool {
        match self.impossible.get(own) {
            Some(flag) => *flag,
            None => false,
        }
    }
}

/// A team at the start of its repair: the cells that may move, whether each cell is legal, and the
/// first pass. The target of each cell in the first pass is its own place.
#[derive(Drop)]
pub struct RepairInput {
    pub policy: MovePolicy,
    pub legal: Vec<bool>,
    pub pass: Pass,
}

/// Whether the cell covers several rows.
pub(crate) fn is_tall(placement: &Placement, id: CellId) -> bool {
    let frame = placement.frame();
    let Some(facts) = placement.cells().cell(id) else {
        return false;
    };
    match frame.macros.as_slice().get(facts.mac) {
        Some(mac) => frame.site.size.y < mac.size.y,
        None => false,
    }
}

/// Whether the cell, of one row's height, has a place on a soft blockage. No search puts it back
/// there, so a legal one stays.
pub(crate) fn is_on_soft(placement: &Placement, id: CellId) -> bool {
    let plan = placement.indexed_frame();
    if plan.index().has_no_soft() {
        return false;
    }
    let Some(place) = placement.cells().working(id) else {
        return false;
    };
    let lo = place.x as i64;
    let hi = lo.saturating_add(width_of(placement, id));
    is_soft_at(&plan, id.team as usize, place.y as i64, lo, hi)
}

/// Whether the cell stays if it is legal: it covers several rows, or it is on a soft blockage.
pub(crate) fn stays_if_legal(placement: &Placement, id: CellId) -> bool {
    is_tall(placement, id) || is_on_soft(placement, id)
}

/// A copy of the flags.
pub(crate) fn copied(alloc: Global, marks: &[bool]) -> Result<Vec<bool>, AllocError>
    ensures { IfOk result (λ copy. copy.items ≡ marks.now) }
{
    let mut copy = Vec::new(alloc);
    copy.extend_from_slice(marks)?;
    Ok(copy)
}

/// The cells locked in the first pass: all legal cells. `Err` if an allocation fails.
pub fn initial_locks(alloc: Global, legal: &[bool]) -> Result<Vec<bool>, AllocError>
    ensures { IfOk result (λ marks. marks.items ≡ legal.now) }
{
    copied(alloc, legal)
}

/// The working places of the cells of the team with this number. `Err` if an allocation fails.
pub fn working_places(
    alloc: Global,
    placement: &Placement,
    number: usize,
) -> Result<Vec<Option<Place>>, AllocError>
    ensures { IfOk result
        (λ targets. AreWorkingPlaces (cells_of placement.now.cells number) targets.items) }
{
    let mut targets = Vec::new(alloc);
    for id in placement.cells().cells_of(number) {
        targets.push(placement.cells().working(*id))?;
    }
    Ok(targets)
}
