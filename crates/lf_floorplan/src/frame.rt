//! The frame, with the facts that loading has checked.

ghost use Rattle.std.specs.Prelude.{◌≡◌, ℕ, ◌<◌, ◌≤◌, All, length};
ghost use Rattle.lf_floorplan.specs.Bounds.{IsDefRect, IsLimit, IsLefSize};
ghost use Rattle.lf_floorplan.specs.Obstacles.{IsObstacle};
ghost use Rattle.lf_floorplan.specs.Rows.{IsPitch, IsCoreRow, RowsApart};
ghost use Rattle.lf_floorplan.specs.Fences.{IsFence, FencesNamed, FencesApart};

use crate::limits::Limits;
use crate::macros::Macro;
use crate::parts::{Header, Row, Team};
use crate::sites::Site;
use lf_units::{Point, Rect, Sequence};

/// The part of a design that every team sees and no command changes.
///
/// A team's number is the position of its fence in `teams`. The number of the ground team `-` is
/// the number of fences; a greater number is no team. The type keeps the facts that loading has
/// checked:
///
/// - 1 to 20,000 database units per micron; a core site in the range of LEF, whose size is whole in
///   database units and above 0.
/// - At least one row, and rows up to the limit. Each has a corner in the range of DEF, at least
///   one site, and orientation N, S, FN or FS. Each ends at x 2147483647 or less. No two share a
///   point.
/// - Fences up to the limit, with different names other than `-`, each of at least one rectangle.
///   No two share a point.
/// - Obstacles are rectangles in the range of DEF, or boxes of the frame's macros with their lower
///   left corner in it.
/// - Macros have sizes and origins in the range of LEF.
pub struct Frame {
    /// The core site: that of the first ROW whose site has CLASS CORE and a size above 0.
    pub site: Site,
    /// The size of a core site in database units.
    pub pitch: Point,
    /// The rows of core sites, in the order of the DEF text.
    pub rows: Sequence<Row>,
    /// The fences, in the order of the DEF text.
    pub teams: Sequence<Team>,
    /// The boxes of FIXED components, and then the placement blockages, in database units.
    pub obstacles: Sequence<Rect>,
    /// The rectangles of the soft placement blockages, in the order of the DEF text, in database
    /// units. A search for a best place avoids them; they are no obstacles.
    pub soft: Sequence<Rect>,
    /// All macros of the LEF texts, used or not.
    pub macros: Sequence<Macro>,
    /// The header of the DEF text.
    pub header: Header,
    pub limits: Limits,
    pub ghost units_in_range: { IsLimit header.units 20000 },
    pub ghost site_in_lef: { IsLefSize site.size },
    pub ghost pitch_whole: { IsPitch header.units site.size pitch },
    pub ghost has_row: { 0 < length rows },
    pub ghost few_rows: { length rows ≤ limits.rows },
    pub ghost rows_are_core: { All (λ r. IsCoreRow pitch r) rows },
    pub ghost rows_apart: { RowsApart pitch rows },
    pub ghost few_fences: { length teams ≤ limits.fences },
    pub ghost fences_whole: { All IsFence teams },
    pub ghost fences_named: { FencesNamed teams },
    pub ghost fences_apart: { FencesApart teams },
    pub ghost obstacles_in_range: { All (IsObstacle header.units macros) obstacles },
    pub ghost soft_in_def: { All IsDefRect soft },
    pub ghost macros_in_lef: { All (λ m. IsLefSize m.size × IsLefSize m.origin) macros },
}

/// Written by hand: with a derived `drop`, the proof of each function that drops a `Frame` unfolds
/// its fields.
impl Drop for Frame {
    fn drop(self) {
        let Frame {
            site: _,
            pitch: _,
            rows: _,
            teams: _,
            obstacles: _,
            soft: _,
            macros: _,
            header: _,
            limits: _,
        } = self;
    }
}
