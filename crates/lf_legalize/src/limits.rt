//! How far from the target a better place can be.

ghost use Rattle.std.specs.Prelude.{◌≡◌, ◌≤◌, ◌<◌, ◌+ℤ◌, ◌-ℤ◌, pos, min, option_map, ◌⊎◌};
ghost use Rattle.lf_rules.specs.Choice.{spot_of};
ghost use Rattle.lf_legalize.specs.Extents.{search_limit as limit_of, IsBetter};

use crate::key::{distance, has_lesser_key};
use crate::row_search::{RowSearch, SearchWindow};
use lf_floorplan::Place;
use lf_units::{Point, Span};

/// The lesser of the two.
fn lesser(far: u128, reach: u64) -> u64
    ensures { result ≡ min far reach }
{
    if far < u128::from(reach) {
        far as u64
    } else {
        reach
    }
}

/// The greatest distance from the target of a place that is as good as the best one so far, or
/// better.
pub(crate) fn limit(target: &Point, reach: u64, best: &Option<Place>) -> u64
    ensures { result ≡ limit_of target.now reach (option_map spot_of best.now) }
{
    match best {
        None => reach,
        Some(place) => lesser(distance(target, place), reach),
    }
}

/// The x range of the boxes of a cell whose x differs from the target's by at most `slack`.
pub(crate) fn window(search: &RowSearch<'_>, slack: u64) -> SearchWindow
    requires { slack ≤ 68719476736 }
    ensures lo { result.span.lo ≡ search.now.target.now.x -ℤ pos slack }
    ensures hi { result.span.hi ≡ (search.now.target.now.x +ℤ pos slack) +ℤ search.now.size.x }
{
    let slack = slack as i64;
    let x = search.target.x;
    let span = Span {
        lo: x - slack,
        hi: x + slack + search.size.x,
    };
    SearchWindow { span }
}

/// The better of the best place so far and this one.
pub(crate) fn better(target: &Point, best: Option<Place>, place: Place) -> Option<Place>
    ensures { IsBetter target.now (option_map spot_of best) (spot_of place) (option_map spot_of result) }
{
    match best {
        None => Some(place),
        Some(old) => {
            if has_lesser_key(target, &place, &old) {
                Some(place)
            } else {
                Some(old)
            }
        }
    }
}
