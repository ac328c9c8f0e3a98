//! A cell in a span.

ghost use Rattle.std.specs.Prelude.{◌≡◌, ◌+◌, ◌<◌, ◌≤◌, ◌^◌, ◌↔◌, IsTrue, length};
ghost use Rattle.lf_repair_planner.specs.Packing.{total_site_displacement, total_width};

/// A cell of one row's height. Sites are counted from the first one of its span.
#[derive(Clone, Copy, Debug, PartialEq, Eq)]
pub struct PackedCell {
    /// The caller's number for the cell.
    pub number: u32,
    /// The width in sites.
    pub width: u32,
    /// The target site.
    pub wanted: u32,
    /// The distance of the target from the left edge of that site, in database units. Only costs count it.
    pub offset: u32,
    /// The greatest distance in sites from the target to which a search pushes it. A cell at its target that no
    /// search pushes has 0.
    pub reach: u32,
    /// The current site.
    pub at: u32,
}

/// The total width of the cells, in sites.
pub(crate) fn width_of(cells: &[PackedCell]) -> u32
    requires { total_width cells.now < 2 ^ 32 }
    ensures { result ≡ total_width cells.now }
{
    let mut width = 0;
    for cell in cells {
        width += cell.width;
    }
    width
}

/// Whether the cells fit between two sites, next to each other.
pub(crate) fn have_room(cells: &[PackedCell], start: u64, end: u64) -> bool
    requires { end < 2 ^ 63 }
    ensures { IsTrue result ↔ start + total_width cells.now ≤ end }
{
    let mut free = start;
    for cell in cells {
        if end < free {
            return false;
        }
        free += cell.width as u64;
    }
    free <= end
}

/// The total displacement of the cells from their targets, in sites.
pub(crate) fn total_displacement(cells: &[PackedCell]) -> u64
    requires { length cells.now ≤ 2 ^ 30 }
    ensures way { result ≡ total_site_displacement cells.now }
    ensures far { result < 2 ^ 63 }
{
    let mut way = 0;
    for cell in cells {
        way += cell.at.abs_diff(cell.wanted) as u64;
    }
    way
}
