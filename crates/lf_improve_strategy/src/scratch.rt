//! Lists that the search of each cell uses again.

use crate::change::SiteMove;
use crate::wanted::CellNets;
use std::alloc::Global;

/// The nets of the cell and of another one, the moves that are tried, and the best so far with the
/// change of the length that they make.
#[derive(Drop)]
pub(crate) struct Scratch {
    pub(crate) nets: CellNets,
    pub(crate) other: CellNets,
    pub(crate) moves: Vec<SiteMove>,
    pub(crate) best: Vec<SiteMove>,
    pub(crate) best_change: i64,
}

impl Scratch {
    /// Empty lists, which allocates nothing.
    pub(crate) fn new(alloc: Global) -> Scratch {
        Scratch {
            nets: CellNets::new(alloc),
            other: CellNets::new(alloc),
            moves: Vec::new(alloc),
            best: Vec::new(alloc),
            best_change: 0,
        }
    }
}
