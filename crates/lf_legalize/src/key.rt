//! The key by which places are compared: the distance from the target, then y, x and the rank of
//! the orientation.

ghost use Rattle.std.specs.Prelude.{◌≡◌, ◌↔◌, ◌<◌, ◌≤◌, ◌^◌, ◌-ℤ◌, IsTrue, ℤ};
ghost use Rattle.std.specs.Int.RustNames.{unsigned_abs};
ghost use Rattle.lf_rules.specs.Choice.{spot_of, Precedes};
ghost use Rattle.lf_rules.specs.Choice.{distance as distance_of, rank as rank_of};

use lf_floorplan::Place;
use lf_orient::Orient;
use lf_units::Point;

/// The distance between the two numbers.
pub(crate) fn gap(a: &i64, b: &i64) -> u64
    ensures { result ≡ unsigned_abs (a.now -ℤ b.now) }
{
    a.abs_diff(*b)
}

/// The distance of the place from the target along x plus that along y.
pub(crate) fn distance(target: &Point, place: &Place) -> u128
    ensures { result ≡ distance_of target.now (spot_of place.now) }
{
    let across = gap(&i64::from(place.x), &target.x);
    let along = gap(&i64::from(place.y), &target.y);
    u128::from(across) + u128::from(along)
}

/// The rank of the orientation. Of places that differ only in it, the one with the lesser rank
/// comes first.
fn rank(orient: Orient) -> u32
    ensures { result ≡ rank_of orient }
{
    match orient {
        Orient::N => 0,
        Orient::S => 1,
        Orient::FN => 2,
        Orient::FS => 3,
        _ => 4,
    }
}

/// Whether the first place has the lesser key for the target. The key is the distance |x - X| + |y
/// - Y| from the target (X, Y), then y, then x. The last part of the key is the orientation in the
/// order N, S, FN, FS. The target may be any point.
pub fn has_lesser_key(target: &Point, first: &Place, second: &Place) -> bool
    ensures { IsTrue result ↔ Precedes target.now (spot_of first.now) (spot_of second.now) }
{
    let near = distance(target, first);
    let far = distance(target, second);
    if near != far {
        return near < far;
    }
    if first.y != second.y {
        return first.y < second.y;
    }
    if first.x != second.x {
        return first.x < second.x;
    }
    rank(first.orient) < rank(second.orient)
}
