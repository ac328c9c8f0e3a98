//! The utilization of the fullest bins.

ghost use Rattle.std.specs.Prelude.{◌≡◌, ◌+◌, ◌++◌, ◌*◌, ◌<◌, ◌≤◌, IfOk, OnOk, length, slice_index};
ghost use Rattle.std.specs.List.{sum};
ghost use Rattle.lf_density.specs.Bins.{capped};
ghost use Rattle.lf_density.specs.Density.{mean_of_fullest as mean_of, utilization, utilizations as utilizations_of};

use std::alloc::{AllocError, Global};

/// Appends the utilization of a bin of this area in thousandths, rounded down, if the bin counts:
/// its usable area is at least a fifth of its area. `Err` if an allocation fails.
fn push_utilization(
    found: &mut Vec<u64>,
    area: u64,
    usable: u64,
    used: u64,
) -> Result<(), AllocError>
    requires positive { 0 < area }
    requires small { area ≤ 1000000000000000000 }
    ensures is { OnOk result (found.new.items ≡ found.old.items ++ utilization area usable used) }
    ensures few { OnOk result (length found.new.items ≤ length found.old.items + 1) }
{
    if usable.saturating_mul(5) < area {
        return Ok(());
    }
    found.push(used.saturating_mul(1000) / usable)?;
    Ok(())
}

/// Returns the utilization of each bin that counts, given the usable and the used area of each bin.
/// `Err` if an allocation fails.
pub(crate) fn utilizations(
    alloc: Global,
    area: u64,
    usable: &[u64],
    used: &[u64],
) -> Result<Vec<u64>, AllocError>
    requires positive { 0 < area }
    requires small { area ≤ 1000000000000000000 }
    requires each { length used.now ≡ length usable.now }
    ensures is { IfOk result (λ found. found.items ≡ utilizations_of area usable.now used.now) }
    ensures few { IfOk result (λ found. length found.items ≤ length usable.now) }
{
    let mut found = Vec::new(alloc);
    for (at, bin) in usable.iter().enumerate() {
        push_utilization(&mut found, area, *bin, used[at])?;
    }
    Ok(found)
}

/// Returns the sum of the numbers, which saturates at the greatest one.
fn sum_of(numbers: &[u64]) -> u64
    ensures { result ≡ capped (sum numbers.now) }
{
    let mut total: u64 = 0;
    for number in numbers {
        total = total.saturating_add(*number);
    }
    total
}

/// Returns the mean of the greatest numbers of a list that does not fall, rounded down: of this
/// many percent of them, but at least of one. 0 if the list is empty.
pub(crate) fn mean_of_fullest(rising: &[u64], percent: usize) -> u64
    requires few { length rising.now ≤ 4000000 }
    requires percent { percent ≤ 100 }
    ensures { result ≡ mean_of rising.now percent }
{
    let many = (rising.len() * percent / 100).max(1);
    sum_of(&rising[rising.len().saturating_sub(many)..]) / many as u64
}
