//! Which of a team's cells are legal, and the first that is not.

ghost use Rattle.std.specs.Prelude.{◌≡◌, ◌<◌, IfOk, IsTrue, Some, length, map, slice_get, slice_set, true};
ghost use Rattle.lf_rules.specs.Legalizer.{Legalizer};
ghost use Rattle.lf_rules.specs.Team.{IsLegalCell};
ghost use Rattle.lf_cells.specs.Cells.{cells_of, id_of};
ghost use Rattle.lf_legalize.specs.Members.{member_of};
ghost use Rattle.lf_placement.specs.Placements.{OverlapsNoCell};
ghost use Rattle.lf_floor_model.specs.Teams.{team_rules};
ghost use Rattle.lf_floor_model.specs.Changes.{broken_cells, broken_where};
ghost use Rattle.lf_floor_verbs.specs.Marking.{AreMarked};
ghost use Rattle.lf_floor_verbs.specs.Tables.{table_cells, frame_of, context_in};

use crate::cell_queries::{broken_where, is_unplaced};
use crate::context::TeamContext;
use crate::tables::Tables;
use lf_cells::CellId;
use lf_placement::Placement;
use lf_reports::BrokenCell;
use lf_rules::{Broken, Padding, legalizer_exists, verdict_is_unique};
use std::alloc::AllocError;

/// Returns true if the cell is placed and breaks no rule at its working place, among the other
/// cells of its team with this padding. False if there is no such cell. Does not allocate.
pub fn is_cell_legal(placement: &Placement, id: CellId, padding: Padding) -> bool
    ensures legal { IsTrue result → IsLegalCell placement.now.frame id.team padding.sites
        (map member_of (cells_of placement.now.cells id.team)) id.own }
    ensures reported { id.own < length (cells_of placement.now.cells id.team)
        → IsLegalCell placement.now.frame id.team padding.sites
        (map member_of (cells_of placement.now.cells id.team)) id.own → IsTrue result }
{
    legalizer_exists();
    verdict_is_unique();
    placement.cells_are_sized();
    if is_unplaced(placement.cells(), id) {
        return false;
    }
    match broken_where(placement, id, padding) {
        Some(_) => false,
        None => true,
    }
}

/// Sets the mark of the cell at that position.
fn mark(marks: &mut Vec<bool>, own: usize)
    requires { own < length marks.old.items }
    ensures { marks.new.items ≡ slice_set marks.old.items own true }
{
    marks[own] = true;
}

/// Returns true if the cell is placed and breaks no rule except overlap at its working place. So it
/// breaks no rule if it overlaps no other cell of its team. Does not allocate.
fn is_legal_apart(placement: &Placement, id: CellId, padding: Padding) -> bool
    requires { OverlapsNoCell placement.now padding.sites id }
    ensures { IsTrue result → IsLegalCell placement.now.frame id.team padding.sites
        (map member_of (cells_of placement.now.cells id.team)) id.own }
{
    legalizer_exists();
    verdict_is_unique();
    placement.cells_are_sized();
    let Some(place) = placement.cells().working(id) else {
        return false;
    };
    placement.broken_frame_rule(id, &place).is_none()
}

/// Marks the team's cell at that position, which overlaps no other cell of the team, if it is
/// placed and breaks no rule at its working place.
fn mark_legal_apart<S>(
    context: &TeamContext<'_, S>,
    tables: &Tables,
    own: usize,
    marks: &mut Vec<bool>,
)
    requires { OverlapsNoCell tables.now.placement context.now.padding.sites (id_of context.now.number own) }
    ensures { AreMarked (frame_of tables.now) context.now.number context.now.padding.sites
        (table_cells context.now.number tables.now) marks.old.items
        → AreMarked (frame_of tables.now) context.now.number context.now.padding.sites
        (table_cells context.now.number tables.now) marks.new.items }
{
    let Some(id) = tables.cell_at(context.number, own) else {
        return;
    };
    if own >= marks.len() {
        return;
    }
    if !is_legal_apart(&tables.placement, id, context.padding) {
        return;
    }
    mark(marks, own);
}

/// Marks cells of the team in the row with this number that are team-legal: those that the strips
/// of the row show to overlap no other cell, and that break no other rule.
///
/// `Err` if an allocation fails.
fn mark_row<S>(
    context: &TeamContext<'_, S>,
    tables: &Tables,
    row: usize,
    marks: &mut Vec<bool>,
) -> Result<(), AllocError>
    ensures { AreMarked (frame_of tables.now) context.now.number context.now.padding.sites
        (table_cells context.now.number tables.now) marks.old.items
        → AreMarked (frame_of tables.now) context.now.number context.now.padding.sites
        (table_cells context.now.number tables.now) marks.new.items }
{
    let apart = tables
        .placement
        .apart_in_row(context.alloc, row, context.number, context.padding)?;
    for own in &apart {
        mark_legal_apart(context, tables, *own as usize, marks);
    }
    Ok(())
}

/// Marks cells of the team that are team-legal, row by row, as `mark_row` does. A team with no more
/// cells than the frame has rows is left to the tests of single cells.
fn mark_rows<S>(
    context: &TeamContext<'_, S>,
    tables: &Tables,
    marks: &mut Vec<bool>,
) -> Result<(), AllocError>
    ensures { AreMarked (frame_of tables.now) context.now.number context.now.padding.sites
        (table_cells context.now.number tables.now) marks.old.items
        → AreMarked (frame_of tables.now) context.now.number context.now.padding.sites
        (table_cells context.now.number tables.now) marks.new.items }
{
    let rows = tables.placement.frame().rows.len();
    if marks.len() <= rows {
        return Ok(());
    }
    for row in 0..rows {
        mark_row(context, tables, row, marks)?;
    }
    Ok(())
}

/// Marks the team's cell at that position if it is placed and breaks no rule at its working place.
/// Does not test a cell whose mark is set.
fn mark_legal<S>(context: &TeamContext<'_, S>, tables: &Tables, own: usize, marks: &mut Vec<bool>)
    ensures { AreMarked (frame_of tables.now) context.now.number context.now.padding.sites
        (table_cells context.now.number tables.now) marks.old.items
        → AreMarked (frame_of tables.now) context.now.number context.now.padding.sites
        (table_cells context.now.number tables.now) marks.new.items }
{
    let Some(id) = tables.cell_at(context.number, own) else {
        return;
    };
    if own >= marks.len() || is_marked(marks.as_slice(), own) {
        return;
    }
    if !is_cell_legal(&tables.placement, id, context.padding) {
        return;
    }
    mark(marks, own);
}

/// Returns a mark for each of the team's cells, in loading order: true if the cell is placed and
/// team-legal. Cells that overlap no other are found row by row; only the remaining ones are tested
/// for overlap one by one.
///
/// `Err` if an allocation fails.
pub(crate) fn legal_marks<S>(
    context: &TeamContext<'_, S>,
    tables: &Tables,
) -> Result<Vec<bool>, AllocError>
    ensures { IfOk result (λ marks. AreMarked (frame_of tables.now) context.now.number context.now.padding.sites
        (table_cells context.now.number tables.now) marks.items) }
{
    let ids = tables.placement.cells().cells_of(context.number);
    let mut marks = vec![in context.alloc; false; ids.len()]?;
    mark_rows(context, tables, &mut marks)?;
    for own in 0..ids.len() {
        mark_legal(context, tables, own, &mut marks);
    }
    Ok(marks)
}

/// Returns true if the mark of the cell at that position is set.
pub(crate) fn is_marked(marks: &[bool], own: usize) -> bool
    ensures { IsTrue result → slice_get marks.now own ≡ Some true }
{
    match marks.get(own) {
        Some(marked) => *marked,
        None => false,
    }
}

/// Returns the first rule that the cell breaks at its working place. `None` if it is unplaced or
/// breaks no rule. Does not test a cell whose mark is set.
pub(crate) fn broken_unmarked(
    placement: &Placement,
    marks: &[bool],
    id: CellId,
    padding: Padding,
) -> Option<Broken>
    requires { AreMarked placement.now.frame id.team padding.sites (cells_of placement.now.cells id.team) marks.now }
    ensures { (l : Legalizer) → result
        ≡ broken_where (team_rules l placement.now.frame id.team padding.sites)
        (cells_of placement.now.cells id.team) id.own }
{
    verdict_is_unique();
    placement.cells_are_sized();
    if is_marked(marks, id.own as usize) {
        return None;
    }
    broken_where(placement, id, padding)
}

/// Returns the team's first cell, in loading order, that breaks a rule at its working place. Tests
/// only cells whose mark is not set. `None` if no cell breaks a rule.
fn first_broken(
    placement: &Placement,
    number: usize,
    marks: &[bool],
    padding: Padding,
) -> Option<BrokenCell>
    requires { AreMarked placement.now.frame number padding.sites (cells_of placement.now.cells number) marks.now }
    ensures { (l : Legalizer) → result
        ≡ slice_get (broken_cells (team_rules l placement.now.frame number padding.sites)
        (cells_of placement.now.cells number)) 0 }
{
    for id in placement.cells().cells_of(number) {
        if let Some(broken) = broken_unmarked(placement, marks, *id, padding) {
            return Some(BrokenCell {
                own: id.own,
                broken,
            });
        }
    }
    None
}

/// Returns the team's first cell, in loading order, that breaks a rule at its working place. `None`
/// if no cell breaks a rule.
///
/// `Err` if an allocation fails.
pub(crate) fn first_broken_cell<S>(
    context: &TeamContext<'_, S>,
    tables: &Tables,
) -> Result<Option<BrokenCell>, AllocError>
    ensures { (l : Legalizer) → IfOk result (λ first. first ≡ slice_get
        (broken_cells (context_in l context.now tables.now) (table_cells context.now.number tables.now)) 0) }
{
    let marks = legal_marks(context, tables)?;
    Ok(first_broken(&tables.placement, context.number, &marks, context.padding))
}
