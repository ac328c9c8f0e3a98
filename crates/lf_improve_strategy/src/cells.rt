//! The cells of a board, their places, and the orientations that they may have.

use lf_repair_planner::RowKind;

/// Some of the orientations N, S, FN and FS.
#[derive(Clone, Copy)]
pub struct Orientations {
    pub n: bool,
    pub s: bool,
    pub fn_: bool,
    pub fs: bool,
}

impl Orientations {
    /// Whether this orientation is one of them.
    pub fn has(&self, orientation: RowKind) -> bool {
        match orientation {
            RowKind::N => self.n,
            RowKind::S => self.s,
            RowKind::FN => self.fn_,
            RowKind::FS => self.fs,
        }
    }
}

/// The orientations that a cell may have in a row of each kind. If there is none for a kind, the
/// cell must not be placed in such a row.
#[derive(Clone, Copy)]
pub struct RowOrientations {
    pub in_n: Orientations,
    pub in_s: Orientations,
    pub in_fn: Orientations,
    pub in_fs: Orientations,
}

impl RowOrientations {
    /// Those in a row of this kind.
    pub fn in_row(&self, row: RowKind) -> &Orientations {
        match row {
            RowKind::N => &self.in_n,
            RowKind::S => &self.in_s,
            RowKind::FN => &self.in_fn,
            RowKind::FS => &self.in_fs,
        }
    }
}

/// A place of a cell: its lower left corner in database units, and its orientation.
#[derive(Clone, Copy, Debug, PartialEq, Eq)]
pub struct CellPlace {
    pub x: i32,
    pub y: i32,
    pub orientation: RowKind,
}

/// A cell of one row's height: its place, its width in database units, and the orientations that it
/// may have.
#[derive(Clone, Copy)]
pub struct ImprovableCell {
    pub place: CellPlace,
    pub width: u32,
    pub orientations: RowOrientations,
}

impl ImprovableCell {
    /// The orientation of the cell in a row of this kind, if it has the orientation `now`: one in
    /// which its pins have the same order from left to right if that is allowed, otherwise another.
    /// `None` if no orientation is allowed.
    pub fn orientation_in(&self, now: RowKind, row: RowKind) -> Option<RowKind> {
        let allowed = self.orientations.in_row(row);
        let wanted = turned_to(now, row);
        if allowed.has(wanted) {
            return Some(wanted);
        }
        if allowed.has(flipped(wanted)) {
            return Some(flipped(wanted));
        }
        for other in [RowKind::N, RowKind::S, RowKind::FN, RowKind::FS] {
            if allowed.has(other) {
                return Some(other);
            }
        }
        None
    }
}

/// The orientation flipped over the y axis.
pub fn flipped(orientation: RowKind) -> RowKind {
    match orientation {
        RowKind::N => RowKind::FN,
        RowKind::S => RowKind::FS,
        RowKind::FN => RowKind::N,
        RowKind::FS => RowKind::S,
    }
}

/// The orientation with the pins of `now` from left to right, and with the supply rails of a row of
/// this kind.
fn turned_to(now: RowKind, row: RowKind) -> RowKind {
    let is_reversed = matches!(now, RowKind::S | RowKind::FN);
    let is_upside_down = matches!(row, RowKind::S | RowKind::FS);
    match (is_reversed, is_upside_down) {
        (false, false) => RowKind::N,
        (false, true) => RowKind::FS,
        (true, false) => RowKind::FN,
        (true, true) => RowKind::S,
    }
}
