//! The cost of displacements. Lengths are in database units, and sums saturate.

/// The limits of a search, and the cost of long displacements.
#[derive(Clone, Copy)]
pub(crate) struct SearchLimits {
    /// The number of gaps tried on each side of the one at the target.
    pub(crate) gaps: usize,
    /// The greatest number of cells pushed on each side.
    pub(crate) most: usize,
    /// Displacement up to this length is charged once;
    pub(crate) near: i64,
    /// beyond it, `weight` times.
    pub(crate) weight: u16,
    /// The longest displacement to which a cell is inserted or pushed.
    pub(crate) reach: i64,
}

/// The cost of a displacement.
pub(crate) fn cost_of(way: i64, limits: &SearchLimits) -> i64 {
    let beyond = way.saturating_sub(limits.near).max(0);
    way.saturating_add(beyond.saturating_mul((limits.weight as i64).saturating_sub(1)))
}

/// The number of a cell by its position, limited to the greatest number.
pub(crate) fn number_of(position: usize) -> u32 {
    position.min(4_294_967_295) as u32
}

/// The distance between two coordinates.
pub(crate) fn apart(first: i32, second: i32) -> i64 {
    (first as i64 - second as i64).abs()
}
