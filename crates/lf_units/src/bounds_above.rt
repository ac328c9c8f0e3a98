//! The bounds of a tree, built from ordered boxes. Starts with the shortest runs and visits each
//! box once.

ghost use Rattle.std.specs.Prelude.{All, IfOk};
ghost use Rattle.lf_units.specs.Packed.{IsBound, IsTree};

use crate::bound::{Bound, NOTHING};
use crate::placed::Placed;
use std::alloc::{AllocError, Global};

/// Returns a bound of the given boxes.
fn bound_of(boxes: &[Placed]) -> Bound
    ensures { All (IsBound result) boxes.now }
{
    let mut bound = NOTHING;
    for placed in boxes {
        bound = bound.joined(&Bound::of(placed));
    }
    bound
}

/// Sets the bounds of a run of the given boxes. Returns the bound of the run itself.
fn bind(boxes: &[Placed], bounds: &mut [Bound]) -> Bound
    ensures tree { IsTree boxes.now bounds.new }
    ensures bound { All (IsBound result) boxes.now }
{
    let Some((bound, below)) = bounds.split_first_mut() else {
        return bound_of(boxes);
    };
    let (before, after_it) = boxes.split_at(boxes.len() / 2);
    let half = below.len() / 2;
    let (first, last) = below.split_at_mut(half);
    let of_first = bind(before, first);
    let of_last = bind(after_it, last);
    let joined = of_first.joined(&of_last);
    *bound = joined;
    joined
}

/// Returns `count` bounds, those of a tree of the boxes in their order. `Err` if an allocation
/// fails.
pub(crate) fn grow(alloc: Global, boxes: &[Placed], count: usize) -> Result<Vec<Bound>, AllocError>
    ensures { IfOk result (λ bounds. IsTree boxes.now bounds.items) }
{
    let mut bounds = vec![in alloc; NOTHING; count]?;
    bind(boxes, bounds.as_mut_slice());
    Ok(bounds)
}
