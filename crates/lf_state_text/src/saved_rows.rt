//! Saved cells and teams of a state text.

use lf_floorplan::PackedPlace;
use lf_rules::Padding;
use lf_undo::Moves;

/// The places of a cell: its working place, and its committed one.
#[derive(Clone, Copy, Debug, PartialEq, Eq)]
pub struct SavedCell {
    pub working: PackedPlace,
    pub committed: PackedPlace,
}

/// A team; its name and those of its cells are the design's.
#[derive(Drop)]
pub struct SavedTeamRow {
    pub revision: u32,
    pub padding: Padding,
    /// For each session slot the revision that its session has seen; `None` if the slot is free.
    pub slots: Vec<Option<u32>>,
    /// Its cells, in loading order.
    pub cells: Vec<SavedCell>,
    /// Its undo entries, the newest first: each has the moves of a change, with the places of their
    /// cells before the change.
    pub entries: Vec<Moves>,
}
