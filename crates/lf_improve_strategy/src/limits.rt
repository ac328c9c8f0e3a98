//! Numbers limited to the range of their types.

/// A count or a position, limited to the greatest number of 32 bits.
pub(crate) fn number_of(position: usize) -> u32 {
    position.min(4_294_967_295) as u32
}

/// A number of 64 bits, limited to the greatest number of 32 bits.
pub fn clipped(number: u64) -> u32 {
    number.min(4_294_967_295) as u32
}

/// A number limited to the range of a count of 32 bits.
pub fn count_of(number: i64) -> u32 {
    number.clamp(0, 4_294_967_295) as u32
}

/// A coordinate limited to its range.
pub(crate) fn coordinate(number: i64) -> i32 {
    number.clamp(-2_147_483_648, 2_147_483_647) as i32
}

/// Twice a number, limited to the range of a coordinate.
pub(crate) fn doubled(number: i64) -> i32 {
    coordinate(number.saturating_mul(2))
}
