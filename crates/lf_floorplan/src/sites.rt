//! Placement sites.

use lf_orient::Symmetry;
use lf_units::{Name, Point};

/// A placement site (LEF/DEF 5.8, LEF SITE). Its lengths are in millionths of a micron.
#[derive(Drop)]
pub struct Site {
    pub name: Name,
    /// Whether its CLASS is CORE.
    pub core: bool,
    /// Its width and height; 0 by 0 if it has no SIZE.
    pub size: Point,
    pub symmetry: Symmetry,
}
