//! The placement of all teams' cells on a frame.

ghost use Rattle.std.specs.Prelude.{◌≡◌, ◌≢◌, ◌<◌, ◌≤◌, ℕ, All, List, length, None, OnOk, IfOk, Some, drop, map, option_map, slice_get, slice_set, take};
ghost use Rattle.lf_rules.specs.declared.rule.Rule.TheVariants.{Overlap};
ghost use Rattle.lf_rules.specs.Choice.{spot_of};
ghost use Rattle.lf_rules.specs.Legalizer.{Legalizer};
ghost use Rattle.lf_cells.specs.declared.cell.Cell.{Cell};
ghost use Rattle.lf_cells.specs.Cells.{as_committed, cells_of, id_of};
ghost use Rattle.lf_cells.specs.Initial.{initial_cells, initial_components};
ghost use Rattle.lf_legalize.specs.Members.{best_of};
ghost use Rattle.lf_occupancy.specs.Views.{KeepsCapacities};
ghost use Rattle.lf_undo.specs.Entries.{Places, moves_taken_back};
ghost use Rattle.lf_placement.specs.Placements.{AreSized, BoundsAt, Fits, HaveMoved, IsBrokenFrameRule, IsBrokenAt, KeepsRest, OtherCellsStay, OverlapsNoCell, SameButRooms};
ghost use Rattle.lf_placement.specs.Placements.{committed_of, moves_applied, working_places_of};

use crate::apply::{apply_moves, commit_places, revert_moves};
use crate::build::{BuiltParts, fitted, tables_of};
use crate::capacity::reserve_moves;
use crate::counted_capacity::{Change, reserve_change};
use crate::sized_cells::SizedCells;
use crate::undo_capacity::fit_moves_back;
use lf_cells::{CellId, CellTable};
use lf_floorplan::{Frame, Loaded, PackedPlace, Place};
use lf_legalize::Seeker;
use lf_occupancy::{Occupancy, StripCounts, widened_strips_cover};
use lf_rules::{Broken, Padding, Rule, broken_frame_rule, overlap_of, padded_box};
use lf_segments::IndexedFrame;
use lf_undo::{Move, Moves};
use lf_units::Point;
use std::alloc::{AllocError, Global};
use std::marker::Model;

/// The cells of all teams of a loaded design on its frame. The strips of the frame have the marks
/// of each cell's box at its working place. No strip ever has less room, and each team's committed
/// places fit. So a team can return to earlier places without allocation. The macros of all cells
/// are the frame's, of whole size, and no team has more than 4,000,000 cells. Contracts see the
/// frame, the cells, and the strips with their boxes and capacities.
#[derive(Drop)]
pub struct Placement {
    frame: Frame,
    cells: CellTable,
    occupancy: Occupancy,
}

impl Model for Placement {
    ghost use Rattle.lf_placement.specs.Placements.{MatchesPlaces, Placing, placing_of};

    ghost Value = { Placing };

    ghost view = { λ p. placing_of p.frame p.cells p.occupancy };

    ghost invariant = { λ p. MatchesPlaces p.frame p.cells p.occupancy };
}

impl Placement {
    /// The placement of a loaded design. `Err` if an allocation fails; the design is then dropped.
    pub fn build(alloc: Global, loaded: Loaded) -> Result<Placement, AllocError>
        ensures frame { IfOk result (λ placement. placement.frame ≡ loaded.frame) }
        ensures cells { IfOk result (λ placement. placement.cells.cells ≡ initial_cells loaded) }
        ensures components { IfOk result (λ placement. placement.cells.components ≡ initial_components loaded) }
    {
        let BuiltParts {
            frame,
            cells,
            occupancy,
        } = tables_of(alloc, loaded)?;
        Ok(Placement {
            frame,
            cells,
            occupancy,
        })
    }

    /// The placement of the given cells on the frame, at their working places, with room for their
    /// committed places. The macros of the cells are the frame's, of whole size, and no team has
    /// more than 4,000,000. `Err` if an allocation fails; frame and cells are then dropped.
    pub fn of(alloc: Global, frame: Frame, cells: CellTable) -> Result<Placement, AllocError>
        requires sized { AreSized frame cells }
        requires few { (team : ℕ) → length (cells_of cells team) ≤ 4000000 }
        ensures frame { IfOk result (λ placement. placement.frame ≡ frame) }
        ensures cells { IfOk result (λ placement. placement.cells ≡ cells) }
    {
        let sized = SizedCells {
            frame: &frame,
            cells: &cells,
        };
        let occupancy = fitted(alloc, &sized)?;
        Ok(Placement {
            frame,
            cells,
            occupancy,
        })
    }

    /// Takes the placement apart into the frame and the cells.
    pub fn into_parts(self) -> (Frame, CellTable)
        ensures frame { result.0 ≡ self.frame }
        ensures cells { result.1 ≡ self.cells }
        ensures sized { AreSized result.0 result.1 }
        ensures few { (team : ℕ) → length (cells_of result.1 team) ≤ 4000000 }
    {
        let Placement {
            frame,
            cells,
            occupancy: _,
        } = self;
        (frame, cells)
    }

    /// The frame of the design.
    pub fn frame(&self) -> &Frame
        ensures { result.now ≡ self.now.frame }
    {
        &self.frame
    }

    /// The cells of all teams.
    pub fn cells(&self) -> &CellTable
        ensures { result.now ≡ self.now.cells }
    {
        &self.cells
    }

    /// The frame with its index.
    pub fn indexed_frame(&self) -> IndexedFrame<'_>
        ensures { result ≡ self.now.frame }
    {
        IndexedFrame::new(&self.frame, self.occupancy.index())
    }

    /// The first rule except overlap that the cell breaks at the place, whatever else is placed.
    /// `None` if it breaks no such rule, or there is no such cell. Does not allocate.
    pub fn broken_frame_rule(&self, id: CellId, place: &Place) -> Option<Rule>
        ensures { IsBrokenFrameRule self.now id place.now result }
    {
        let cell_placement = self.cells.placement_of(id)?;
        let mac = &self.frame.macros.as_slice()[cell_placement.mac];
        broken_frame_rule(&self.indexed_frame(), id.team as usize, mac, place)
    }

    /// The position of the first of the team's other cells that overlaps the cell at the place,
    /// with the padding on its left and right. The cell breaks no other rule there, so overlap with
    /// that cell is the first rule that it breaks. `None` iff the place is team-legal for the cell,
    /// or there is no such cell. Does not allocate.
    pub fn first_overlapping(&self, id: CellId, place: &Place, padding: Padding) -> Option<u32>
        requires { IsBrokenFrameRule self.now id place.now None }
        ensures { IsBrokenAt self.now padding.sites id place.now
            (option_map (λ own. record { rule = Overlap; other = Some own }) result) }
    {
        let cell_placement = self.cells.placement_of(id)?;
        let mac = &self.frame.macros.as_slice()[cell_placement.mac];
        let rect = padded_box(&self.frame, mac, place, padding);
        widened_strips_cover();
        self.occupancy
            .with_boxes(&self.frame, &self.cells)
            .first_overlapping(id, &rect)
    }

    /// Positions of cells of the team that overlap no other cell of the team, which has this
    /// padding. The cells lie in the team's strips of the row with this number, and are listed from
    /// left to right. A cell that does not lie in one strip, as one of several rows, is not listed.
    /// `Err` if an allocation fails.
    pub fn apart_in_row(
        &self,
        alloc: Global,
        row: usize,
        team: usize,
        padding: Padding,
    ) -> Result<Vec<u32>, AllocError>
        ensures { IfOk result
            (λ apart. All (λ own. OverlapsNoCell self.now padding.sites (id_of team own)) apart.items) }
    {
        widened_strips_cover();
        self.occupancy
            .with_boxes(&self.frame, &self.cells)
            .apart_in_row(alloc, row, team, padding.length(&self.frame))
    }

    /// The first rule that the cell breaks at the place with the other cells of its team, which has
    /// this padding. `None` if it breaks no rule, or there is no such cell. Does not allocate.
    pub fn first_broken(&self, id: CellId, place: &Place, padding: Padding) -> Option<Broken>
        ensures { IsBrokenAt self.now padding.sites id place.now result }
    {
        if let Some(rule) = self.broken_frame_rule(id, place) {
            return Some(Broken { rule, other: None });
        }
        overlap_of(self.first_overlapping(id, place, padding))
    }

    /// The best place of the cell for a target, with this padding of its team. `None` if it has no
    /// best place, or there is no such cell. `Err` if an allocation fails.
    pub fn best_place<S: Seeker>(
        &self,
        alloc: Global,
        seeker: &S,
        id: CellId,
        target: &Point,
        padding: Padding,
    ) -> Result<Option<Place>, AllocError>
        ensures { (l : Legalizer) → IfOk result (λ found. option_map spot_of found
            ≡ best_of l self.now.frame id.team padding.sites (cells_of self.now.cells id.team) id.own target.now) }
    {
        seeker.seek(
            alloc,
            &self.frame,
            &self.cells,
            &self.occupancy.with_boxes(&self.frame, &self.cells),
            id,
            target,
            padding,
        )
    }

    /// Makes the room that `apply` needs for these moves of the team's cells: afterwards the places
    /// after the moves fit. Cells and boxes are unchanged, and no strip has less room. `Err` if an
    /// allocation fails: then some room may have been made, and nothing else is changed.
    pub fn reserve(&mut self, alloc: Global, team: usize, moves: &[Move]) -> Result<(), AllocError>
        ensures ok { OnOk result
            (Fits self.new team (working_places_of (moves_applied moves.now (cells_of self.old.cells team)))) }
        ensures same { SameButRooms self.old self.new }
    {
        let sized = SizedCells {
            frame: &self.frame,
            cells: &self.cells,
        };
        reserve_moves(alloc, &sized, &mut self.occupancy, team, moves)
    }

    /// The number of boxes that each strip holds. These counts bound the working places of each
    /// team. `reserve_undo` changes them to counts of earlier places. `Err` if an allocation fails.
    pub fn strip_counts(&self, alloc: Global) -> Result<StripCounts, AllocError>
        ensures room { IfOk result (λ tally. KeepsCapacities tally self.now.held.rooms) }
        ensures bounds { (team : ℕ)
            → IfOk result (λ tally. BoundsAt self.now team (working_places_of (cells_of self.now.cells team)) tally) }
    {
        self.occupancy.strip_counts(alloc)
    }

    /// Counts a cell of the team at the new place of the change, and no longer at the old one.
    /// Makes the room that is then lacking. `Err` if an allocation fails: then the counts are
    /// unspecified.
    pub(crate) fn reserve_change(
        &mut self,
        counts: &mut StripCounts,
        team: usize,
        change: &Change,
    ) -> Result<(), AllocError>
        requires { KeepsCapacities counts.old self.old.held.rooms }
        ensures room { OnOk result (KeepsCapacities counts.new self.new.held.rooms) }
        ensures own { (places : Places) → slice_get places change.now.own ≡ Some change.now.from
            → BoundsAt self.old team places counts.old
            → OnOk result (BoundsAt self.new team (slice_set places change.now.own change.now.to) counts.new) }
        ensures others { (places : Places) → (other : ℕ) → other ≢ team → BoundsAt self.old other places counts.old
            → OnOk result (BoundsAt self.new other places counts.new) }
        ensures same { SameButRooms self.old self.new }
    {
        let sized = SizedCells {
            frame: &self.frame,
            cells: &self.cells,
        };
        reserve_change(&sized, &mut self.occupancy, counts, team, change)
    }

    /// Undoes moves of the team's cells on a list of places, the last one first, and makes room for
    /// the resulting places. No cell is moved.
    ///
    /// The counts bound the given places, and afterwards the resulting ones, which then fit. Bounds
    /// for other teams stay valid. If a team's undo entries are passed one after the other, the
    /// newest first, the places that each of them restores fit.
    ///
    /// `Err` if an allocation fails: then the counts are unspecified, and some room may have been
    /// made.
    pub fn reserve_undo(
        &mut self,
        counts: &mut StripCounts,
        team: usize,
        places: &mut [PackedPlace],
        moves: &Moves,
    ) -> Result<(), AllocError>
        requires own { All (λ m. m.own < length places.old) moves.now }
        requires room { KeepsCapacities counts.old self.old.held.rooms }
        requires bounds { BoundsAt self.old team places.old counts.old }
        ensures places { OnOk result (places.new ≡ moves_taken_back moves.now places.old) }
        ensures room { OnOk result (KeepsCapacities counts.new self.new.held.rooms) }
        ensures bounds { OnOk result (BoundsAt self.new team places.new counts.new) }
        ensures fits { OnOk result (Fits self.new team places.new) }
        ensures others { (at : Places) → (other : ℕ) → other ≢ team → BoundsAt self.old other at counts.old
            → OnOk result (BoundsAt self.new other at counts.new) }
        ensures same { SameButRooms self.old self.new }
    {
        fit_moves_back(self, counts, team, places, moves)
    }

    /// Makes the moves of the team's cells from index `from` on, in their order, and stores in each
    /// the previous place of its cell. So afterwards the moves are what `undo_moves` needs.
    ///
    /// If the moves in front of `from` have led here from some cells, all moves now lead here from
    /// the same cells. The places after the moves must fit. Other teams, the frame, the positions
    /// of components and the capacities of the strips are unchanged. Does not allocate.
    pub fn apply(&mut self, team: usize, moves: &mut Moves, from: usize)
        requires { Fits self.old team
            (working_places_of (moves_applied (drop from moves.old) (cells_of self.old.cells team))) }
        ensures own { cells_of self.new.cells team
            ≡ moves_applied (drop from moves.old) (cells_of self.old.cells team) }
        ensures moved { (before : List Cell) → HaveMoved before (take from moves.old) (cells_of self.old.cells team)
            → HaveMoved before moves.new (cells_of self.new.cells team) }
        ensures others { OtherCellsStay team self.old.cells self.new.cells }
        ensures rest { KeepsRest self.old self.new }
    {
        apply_moves(
            &self.frame,
            &mut self.cells,
            &mut self.occupancy,
            team,
            moves,
            from,
        );
    }

    /// Undoes moves of the team's cells, the last one first.
    ///
    /// If the moves have led here from some cells, the team has these cells again. The places after
    /// the undo must fit. Other teams, the frame, the positions of components and the capacities of
    /// the strips are unchanged. Does not allocate.
    pub fn undo_moves(&mut self, team: usize, moves: &Moves)
        requires { Fits self.old team (moves_taken_back moves.now (working_places_of (cells_of self.old.cells team))) }
        ensures own { (before : List Cell) → HaveMoved before moves.now (cells_of self.old.cells team)
            → cells_of self.new.cells team ≡ before }
        ensures others { OtherCellsStay team self.old.cells self.new.cells }
        ensures rest { KeepsRest self.old self.new }
    {
        revert_moves(
            &self.frame,
            &mut self.cells,
            &mut self.occupancy,
            team,
            moves,
        );
    }

    /// Makes the working places of the team's cells their committed ones. Other teams, the frame,
    /// the positions of components and the capacities of the strips are unchanged.
    pub fn commit_team(&mut self, team: usize)
        ensures own { cells_of self.new.cells team ≡ map as_committed (cells_of self.old.cells team) }
        ensures others { OtherCellsStay team self.old.cells self.new.cells }
        ensures rest { KeepsRest self.old self.new }
    {
        self.occupancy.boxes_fit();
        commit_places(&mut self.cells, team);
    }

    /// A law: the macros of all cells are the frame's, of whole size, and no team has more than
    /// 4,000,000 cells.
    pub fn cells_are_sized(&self)
        ensures sized { AreSized self.now.frame self.now.cells }
        ensures few { (team : ℕ) → length (cells_of self.now.cells team) ≤ 4000000 }
    {
        let _ = &self.cells;
    }

    /// A law: the working places of each team fit.
    pub fn boxes_match_places(&self)
        ensures { (team : ℕ) → Fits self.now team (working_places_of (cells_of self.now.cells team)) }
    {
        self.occupancy.boxes_fit();
    }

    /// A law: the committed places of each team fit.
    pub fn committed_fit(&self)
        ensures { (team : ℕ) → Fits self.now team (committed_of (cells_of self.now.cells team)) }
    {
        let _ = &self.cells;
    }
}
