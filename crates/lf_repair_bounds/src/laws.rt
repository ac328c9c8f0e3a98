//! What the numbers mean for any repair.

ghost use Rattle.lf_repair_bounds.specs.MinDisplacements.{NoRepairDoesBetter};

/// Wherever the cells of a team move, one of them moves at least as far as the largest of their
/// least displacements.
pub fn no_repair_does_better()
    ensures { NoRepairDoesBetter }
{}
