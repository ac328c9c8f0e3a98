//! The cells of a floor at their working places, as a netlist reads them.

ghost use Rattle.std.specs.Prelude.{◌≡◌, slice_index_or};
ghost use Rattle.lf_improve_team.specs.FloorLengths.{listed_place};

use lf_floor::CellPlaces;
use lf_floorplan::Place;
use lf_wire_length::PlacedCells;
use std::marker::Model;

/// The cells of a floor at their working places, numbered in loading order. `teams` has the number
/// of each cell's team.
///
/// Contracts see the list of working places and the list of teams.
#[derive(Drop)]
pub struct CellsOnFloor<'a> {
    places: CellPlaces<'a>,
    teams: &'a [u32],
}

impl<'a> Model for CellsOnFloor<'a> {
    ghost use Rattle.std.specs.Prelude.{ℕ, List, Option};
    ghost use Rattle.lf_floorplan.specs.declared.place.Place.{Place};

    ghost Value = { List (ℕ × Option Place) × List ℕ };

    ghost view = { λ c. (c.places, c.teams.now) };
}

impl<'a> CellsOnFloor<'a> {
    /// The cells at these places, of these teams.
    pub fn new(places: CellPlaces<'a>, teams: &'a [u32]) -> CellsOnFloor<'a>
        ensures { result ≡ (places.entry, teams.now) }
    {
        CellsOnFloor { places, teams }
    }
}

/// A number that no cell has is unplaced, and of team 0.
impl<'a> PlacedCells for CellsOnFloor<'a> {
    ghost place_of = { λ c. listed_place c.0 };

    ghost team_of = { λ c cell. slice_index_or c.1 cell 0 };

    fn place(&self, cell: u32) -> Option<Place> {
        self.places.at(cell as usize)?.1
    }

    fn team(&self, cell: u32) -> usize {
        match self.teams.get(cell as usize) {
            Some(team) => *team as usize,
            None => 0,
        }
    }
}
