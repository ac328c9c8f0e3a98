//! Library cells.

use lf_orient::{Rail, Symmetry};
use lf_units::{Name, Point};

/// A library cell (LEF/DEF 5.8, LEF MACRO). Its lengths are in millionths of a micron.
#[derive(Drop)]
pub struct Macro {
    pub name: Name,
    /// Its width and height; 0 by 0 if it has no SIZE.
    pub size: Point,
    /// The offset added to its points; 0 0 if it has no ORIGIN.
    pub origin: Point,
    pub symmetry: Symmetry,
    /// The supply rail along its bottom. Power if, after ORIGIN is added, a RECT of a POWER pin
    /// reaches y = 0 and no RECT of a GROUND pin does; otherwise ground.
    pub rail: Rail,
}
