//! The parts of a report: the number of cells, the number of unplaced cells, and the placed cells
//! that break a rule.

use crate::rule::Rule;
use lf_floorplan::Place;
use lf_units::{Name, Sequence};

/// A movable cell as a report lists it. Its name has the type `N`: a slice in the program, a list
/// of bytes in a contract.
#[derive(Clone, Copy)]
pub struct Listed<N> {
    pub name: N,
    /// The number of its team: the position of a fence in the frame, or the number of fences for
    /// the ground team.
    pub team: usize,
    /// The position of its macro in the frame.
    pub mac: usize,
    /// Its place, in database units; `None` if it is unplaced.
    pub place: Option<Place>,
}

/// A placed cell that breaks a rule.
#[derive(Drop)]
pub struct Violation {
    /// The name of the cell.
    pub cell: Name,
    /// The first rule that it breaks.
    pub rule: Rule,
    /// For Overlap, the name of the first other cell in loading order that it overlaps; `None` for
    /// another rule.
    pub other: Option<Name>,
}

/// The result of checking cells.
#[derive(Drop)]
pub struct Report {
    /// The number of cells.
    pub cells: usize,
    /// The number of unplaced cells.
    pub unplaced: usize,
    /// The placed cells that break a rule, in loading order.
    pub violations: Sequence<Violation>,
}
