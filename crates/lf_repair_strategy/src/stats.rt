//! The result of repairing a team.

/// Means of the displacements of all cells of a team, in thousandths of the height of a row, rounded
/// down. A cell that stays, or that had or has no place, counts with a displacement of 0.
#[derive(Clone, Copy)]
pub struct DisplacementMeans {
    /// The mean over all cells. 0 if there is none.
    pub all: u64,
    /// The mean over the heights from 1 to 8 rows that occur, of the means over the cells of each
    /// height.
    pub by_height: u64,
}

/// The result of repairing one team. Displacement is |dx| + |dy| between a cell's old and new
/// place, in database units. In the report `displaced_legal` has the key `pushed`,
/// `total_displacement` `total`, `max_displacement` `largest`, `unrepaired` `left`, `means.all`
/// `average`, and `means.by_height` `mean_by_height`.
#[derive(Drop)]
pub struct RepairStats {
    /// The number of cells that broke a rule or had no place.
    pub cells: u32,
    /// The number of legal cells whose place and orientation are unchanged.
    pub kept: u32,
    /// The number of cells that had a place and now have another corner.
    pub moved: u32,
    /// The number of cells that had no place and have one now.
    pub placed: u32,
    /// The number of legal cells whose place or orientation changed.
    pub displaced_legal: u32,
    /// The number of cells that had a place and now have another orientation.
    pub turned: u32,
    /// The total displacement of all cells.
    pub total_displacement: u64,
    /// The longest displacement.
    pub max_displacement: u64,
    /// The means of the displacements.
    pub means: DisplacementMeans,
    /// The positions in the team, in loading order from 0, of the cells whose place changed.
    pub changed: Vec<u32>,
    /// The positions of the unrepaired cells: those that are unplaced or break a rule.
    pub unrepaired: Vec<u32>,
}
