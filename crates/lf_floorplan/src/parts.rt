//! Rows, fences and the header of a frame.

use lf_orient::Orient;
use lf_units::{Name, Rect, Sequence};

/// A row of core sites (DEF ROW): its lower left corner in database units, and its number of sites.
#[derive(Drop)]
pub struct Row {
    pub name: Name,
    pub x: i32,
    pub y: i32,
    pub orient: Orient,
    pub sites: u32,
}

/// A fence (DEF REGIONS with TYPE FENCE): its name, and its rectangles in the order of the text, in
/// database units.
#[derive(Drop)]
pub struct Team {
    pub name: Name,
    pub rects: Sequence<Rect>,
}

/// The header of the DEF text, token by token, and its database units per micron (DEF UNITS).
#[derive(Drop)]
pub struct Header {
    pub version: Name,
    pub divider: Name,
    pub brackets: Name,
    pub design: Name,
    pub units: u32,
}
