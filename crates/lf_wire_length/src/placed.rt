//! The places of cells.

ghost use Rattle.std.specs.Prelude.{◌≡◌};
ghost use Rattle.lf_wire_length.specs.Placed.{loaded_place, loaded_team};

use lf_floorplan::{LoadedCells, Place};

/// The places and teams of a design's cells.
pub trait PlacedCells {
    ghost use Rattle.std.specs.Prelude.{ℕ, Option};
    ghost use Rattle.lf_floorplan.specs.declared.place.Place.{Place};

    /// The place of the cell of this number; `None` if it is unplaced or there is no such cell.
    ghost place_of: { Self → ℕ → Option Place };

    /// The number of the cell's team.
    ghost team_of: { Self → ℕ → ℕ };

    /// Returns the place of the cell of this number. `None` if it is unplaced or there is no such
    /// cell.
    fn place(&self, cell: u32) -> Option<Place>
        ensures { result ≡ place_of self.now cell };

    /// Returns the number of the cell's team.
    fn team(&self, cell: u32) -> usize
        ensures { result ≡ team_of self.now cell };
}

/// The places as loaded. A number that no cell has is of team 0.
impl PlacedCells for LoadedCells {
    ghost place_of = { loaded_place };

    ghost team_of = { loaded_team };

    fn place(&self, cell: u32) -> Option<Place> {
        match self.get(cell as usize) {
            Some(cell) => cell.place,
            None => None,
        }
    }

    fn team(&self, cell: u32) -> usize {
        match self.get(cell as usize) {
            Some(cell) => cell.team,
            None => 0,
        }
    }
}
