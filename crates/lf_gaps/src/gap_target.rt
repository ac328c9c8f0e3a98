//! A width that is to be placed near a number.

ghost use Rattle.std.specs.Prelude.{◌<ℤ◌, pos};
ghost use Rattle.lf_units.specs.Grids.{IsBounded, IsGrid};

use lf_units::SiteGrid;

/// A width, the grid of its left ends, and the number that its left end should be near. All are
/// within 2^40 of 0, in database units. The width and the grid's step are above 0.
#[derive(Clone, Copy)]
pub struct GapTarget {
    pub grid: SiteGrid,
    pub width: i64,
    pub target: i64,
    pub ghost on_grid: { IsGrid grid },
    pub ghost some: { pos 0 <ℤ width },
    pub ghost width_bounded: { IsBounded width },
    pub ghost target_bounded: { IsBounded target },
}
