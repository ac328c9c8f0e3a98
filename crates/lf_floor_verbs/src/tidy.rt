//! The verb `tidy`.

ghost use Rattle.std.specs.Prelude.{◌≡◌, [], List, IfOk, OnErr, OnOk};
ghost use Rattle.lf_rules.specs.Legalizer.{Legalizer};
ghost use Rattle.lf_cells.specs.declared.cell.Cell.{Cell};
ghost use Rattle.lf_cells.specs.Cells.{cells_of, moved};
ghost use Rattle.lf_placement.specs.Placements.{HaveMoved};
ghost use Rattle.lf_floor_model.specs.Outcomes.{IsOutcome, IsOutOfMemory};
ghost use Rattle.lf_floor_model.specs.Changes.{tidied_team};
ghost use Rattle.lf_floor_model.specs.Teams.{team_rules};
ghost use Rattle.lf_floor_verbs.specs.Tables.{CanChange, EntriesFit, OnlyMovesTeam, KeepsOtherTeams, frame_of, context_at, context_in, team_in};
ghost use Rattle.lf_floor_verbs.specs.Marking.{AreMarked};
ghost use Rattle.lf_floor_verbs.specs.Tidying.{TidiesOneCell, TidiesCells, tidy_target_at};

use crate::cell_queries::{best_place, broken_at};
use crate::context::TeamContext;
use crate::tables::Tables;
use crate::team_legality::{is_marked, legal_marks};
use lf_cells::CellId;
use lf_floorplan::Place;
use lf_legalize::{Seeker, anchor};
use lf_placement::Placement;
use lf_proto::{Refusal, Reply};
use lf_rules::{Padding, legalizer_exists, tidy_keeps_legal, verdict_is_unique};
use lf_undo::{Move, Moves};
use lf_units::Point;
use std::alloc::{AllocError, Global};

/// The result for one cell.
#[derive(Clone, Copy)]
enum TidyStep {
    /// It is placed and breaks no rule.
    Stays,
    /// It was moved to its best place.
    Goes,
    /// It has no best place.
    Nowhere,
}

/// The result for all cells of a team.
#[derive(Clone, Copy)]
enum Tidy {
    /// This number of cells were moved to their best place.
    Done(u32),
    /// The cell at that position has no best place.
    Stopped(u32),
}

/// The corner of a place.
fn corner(place: &Place) -> Point
    ensures { result ≡ record { x = place.now.x; y = place.now.y } }
{
    Point {
        x: i64::from(place.x),
        y: i64::from(place.y),
    }
}

/// Returns the target to which the team's cell is tidied: the anchor if it is unplaced, its own
/// corner if it breaks a rule. `None` if it stays, as each cell with a mark does.
fn target_of(placement: &Placement, marks: &[bool], id: CellId, padding: Padding) -> Option<Point>
    requires { AreMarked placement.now.frame id.team padding.sites (cells_of placement.now.cells id.team) marks.now }
    ensures { (l : Legalizer) → result ≡ tidy_target_at (team_rules l placement.now.frame id.team padding.sites)
        (cells_of placement.now.cells id.team) id.own }
{
    verdict_is_unique();
    placement.cells_are_sized();
    if is_marked(marks, id.own as usize) {
        return None;
    }
    let cell_placement = placement.cells().placement_of(id)?;
    let Some(place) = cell_placement.working else {
        return Some(anchor(placement.frame(), id.team as usize));
    };
    match broken_at(placement, id, &place, padding) {
        Some(_) => Some(corner(&place)),
        None => None,
    }
}

/// Reserves memory for one cell, moves it, and appends the move with the cell's old place.
///
/// `Err` if an allocation fails; then no cell has moved.
fn move_one(
    alloc: Global,
    placement: &mut Placement,
    moves: &mut Moves,
    id: CellId,
    place: Option<Place>,
) -> Result<(), AllocError>
    ensures own { OnOk result
        (cells_of placement.new.cells id.team ≡ moved (cells_of placement.old.cells id.team) id.own place) }
    ensures moved { (before : List Cell) → HaveMoved before moves.old (cells_of placement.old.cells id.team) →
        HaveMoved before moves.new (cells_of placement.new.cells id.team) }
    ensures only { OnlyMovesTeam id.team placement.old placement.new }
{
    let number = id.team as usize;
    placement.reserve(alloc, number, &[Move::new(id.own, place)])?;
    let from = moves.as_slice().len();
    moves.push(Move::new(id.own, place))?;
    placement.apply(number, moves, from);
    Ok(())
}

/// Moves the team's cell to its best place, unless it stays.
///
/// `Err` if an allocation fails.
fn tidy_cell<S: Seeker>(
    context: &TeamContext<'_, S>,
    placement: &mut Placement,
    moves: &mut Moves,
    marks: &[bool],
    id: CellId,
) -> Result<TidyStep, AllocError>
    requires team { id.team ≡ context.now.number }
    requires marked { AreMarked placement.old.frame context.now.number context.now.padding.sites
        (cells_of placement.old.cells context.now.number) marks.now }
    ensures ok { (l : Legalizer) → IfOk result (λ sent. TidiesOneCell (context_at l context.now placement.old) id.own
        (cells_of placement.old.cells context.now.number) (cells_of placement.new.cells context.now.number) sent) }
    ensures moved { (before : List Cell) → HaveMoved before moves.old (cells_of placement.old.cells context.now.number) →
        HaveMoved before moves.new (cells_of placement.new.cells context.now.number) }
    ensures only { OnlyMovesTeam context.now.number placement.old placement.new }
{
    let Some(target) = target_of(placement, marks, id, context.padding) else {
        return Ok(TidyStep::Stays);
    };
    match best_place(context, placement, id, &target)? {
        Some(place) => {
            move_one(context.alloc, placement, moves, id, Some(place))?;
            Ok(TidyStep::Goes)
        }
        None => Ok(TidyStep::Nowhere),
    }
}

/// Tidies the team's cells in loading order, up to the first that has no best place.
///
/// The cells with marks are placed and team-legal. They stay so while others are moved, and are not
/// tested again.
///
/// `Err` if an allocation fails.
fn tidy_cells<S: Seeker>(
    context: &TeamContext<'_, S>,
    placement: &mut Placement,
    moves: &mut Moves,
    marks: &[bool],
) -> Result<Tidy, AllocError>
    requires marked { AreMarked placement.old.frame context.now.number context.now.padding.sites
        (cells_of placement.old.cells context.now.number) marks.now }
    ensures ok { (l : Legalizer) → IfOk result (λ tidy. TidiesCells (context_at l context.now placement.old)
        (cells_of placement.old.cells context.now.number) (cells_of placement.new.cells context.now.number) tidy) }
    ensures moved { (before : List Cell) → HaveMoved before moves.old (cells_of placement.old.cells context.now.number) →
        HaveMoved before moves.new (cells_of placement.new.cells context.now.number) }
    ensures only { OnlyMovesTeam context.now.number placement.old placement.new }
{
    legalizer_exists();
    tidy_keeps_legal();
    let mut moved = 0;
    for own in 0..placement.cells().cells_of(context.number).len() {
        placement.cells_are_sized();
        let id = placement.cells().cells_of(context.number)[own];
        match tidy_cell(context, placement, moves, marks, id)? {
            TidyStep::Stays => {}
            TidyStep::Goes => moved += 1,
            TidyStep::Nowhere => return Ok(Tidy::Stopped(id.own)),
        }
    }
    Ok(Tidy::Done(moved))
}

/// Returns an empty list of moves with room for each cell without a mark. A list that grows would
/// take up to three times as much memory.
///
/// `Err` if an allocation fails.
fn moves_for(alloc: Global, marks: &[bool]) -> Result<Moves, AllocError>
    ensures { IfOk result (λ moves. moves ≡ []) }
{
    Moves::with_capacity(alloc, marks.iter().filter(|marked| !**marked).count())
}

impl Tables {
    /// Moves each of the team's cells that is unplaced or breaks a rule to its best place, in
    /// loading order. If a cell has no best place, refuses with `NoPlace` and moves all cells back
    /// without allocating.
    ///
    /// `Err` if an allocation fails; then the team is unchanged.
    pub(crate) fn tidy<S: Seeker>(
        &mut self,
        context: &TeamContext<'_, S>,
        session: u32,
    ) -> Result<Reply, AllocError>
        requires change { CanChange context.now.number session self.old }
        ensures ok { (l : Legalizer) → IfOk result (λ reply. IsOutcome
            (tidied_team (context_in l context.now self.old) session (team_in context.now self.old))
            reply (team_in context.now self.new)) }
        ensures err { (l : Legalizer) → OnErr result (IsOutOfMemory
            (tidied_team (context_in l context.now self.old) session (team_in context.now self.old))
            (team_in context.now self.old) (team_in context.now self.new)) }
        ensures others { KeepsOtherTeams context.now.number self.old self.new }
        ensures fit { EntriesFit context.now.number self.new }
    {
        let marks = legal_marks(context, self)?;
        let mut moves = moves_for(context.alloc, &marks)?;
        self.reserve_entry(context.number)?;
        self.placement.boxes_match_places();
        match tidy_cells(context, &mut self.placement, &mut moves, &marks) {
            Ok(Tidy::Done(moved)) => {
                let revision = self.push_undo(context.number, session, moves);
                Ok(Reply::Tidied { revision, moved })
            }
            Ok(Tidy::Stopped(cell)) => {
                self.placement.undo_moves(context.number, &moves);
                Ok(Reply::Refused(Refusal::NoPlace { cell }))
            }
            Err(error) => {
                self.placement.undo_moves(context.number, &moves);
                Err(error)
            }
        }
    }
}
