//! The place of a cell.

ghost use Rattle.std.specs.Prelude.{◌≡◌, ◌↔◌, ◌<ℤ◌, IsTrue, negsuc};

use lf_orient::Orient;

/// The lower left corner of a cell's box in database units, and the cell's orientation (DEF
/// COMPONENTS, the point of PLACED).
///
/// Neither number is -2147483648, which no DEF text can hold.
#[derive(Clone, Copy, Debug, PartialEq, Eq)]
pub struct Place {
    pub x: i32,
    pub y: i32,
    pub orient: Orient,
    pub ghost x_in_def: { negsuc 2147483647 <ℤ x },
    pub ghost y_in_def: { negsuc 2147483647 <ℤ y },
}

impl Place {
    /// Returns the place at a corner that a DEF text can hold: neither number is -2147483648.
    pub fn new(x: i32, y: i32, orient: Orient) -> Place
        requires x_in_def { negsuc 2147483647 <ℤ x }
        requires y_in_def { negsuc 2147483647 <ℤ y }
        ensures x_is { result.x ≡ x }
        ensures y_is { result.y ≡ y }
        ensures orient_is { result.orient ≡ orient }
    {
        Place { x, y, orient }
    }
}

/// Returns whether both are the same place.
fn is_one_place(a: &Place, b: &Place) -> bool
    ensures { IsTrue result ↔ a.now ≡ b.now }
{
    a.x == b.x && a.y == b.y && a.orient == b.orient
}

/// Returns whether both are the same place, or both are `None`.
pub fn same_place(a: Option<Place>, b: Option<Place>) -> bool
    ensures { IsTrue result ↔ a ≡ b }
{
    match (a, b) {
        (Some(a), Some(b)) => is_one_place(&a, &b),
        (None, None) => true,
        _ => false,
    }
}
