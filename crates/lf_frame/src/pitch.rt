//! The core site and its size.

ghost use Rattle.std.specs.Prelude.{◌≡◌, ◌≤◌, ◌<ℤ◌, ◌≤ℤ◌, pos, true, IfSome, MatchOption};
ghost use Rattle.std.specs.Option.{option_copied};
ghost use Rattle.lf_lef.specs.Lengths.{HasRange};
ghost use Rattle.lf_frame.specs.Loading.{core_site as core_site_of, has_size, IsWholeSize};
ghost use Rattle.lf_floorplan.specs.Sizes.{size_in_dbu};
ghost use Rattle.lf_floorplan.specs.Rows.{IsPitch};

use crate::component_checks::is_whole_size;
use crate::row_checks::core_site;
use lf_def::RowStatement;
use lf_floorplan::{Site, size_in_units};
use lf_lef::Library;
use lf_units::Point;

/// The size of a core site in database units. Both lengths are above 0 and within the largest
/// length of LEF.
#[derive(Clone, Copy, Debug)]
pub struct Pitch {
    pub size: Point,
    pub ghost wide: { pos 0 <ℤ size.x },
    pub ghost high: { pos 0 <ℤ size.y },
    pub ghost narrow: { size.x ≤ℤ pos 20000000000 },
    pub ghost low: { size.y ≤ℤ pos 20000000000 },
}

/// Returns the core site, with lengths in the range of LEF and above 0. `None` if no row has such a
/// site.
pub fn sized_core_site<'l>(library: &'l Library, rows: &[RowStatement]) -> Option<&'l Site>
    ensures core { option_copied result ≡ core_site_of library.now rows.now }
    ensures range { IfSome result (λ s. HasRange s.now.size) }
    ensures sized { IfSome result (λ s. has_size s.now.size ≡ true) }
{
    core_site(library, rows)
}

/// Returns the size of a core site in database units, given 1 to 20,000 database units per micron.
/// `None` if and only if the size is not whole in them. The site must be as `sized_core_site`
/// returns it.
pub fn core_pitch(core: &Site, units: u32) -> Option<Pitch>
    requires least { 1 ≤ units }
    requires most { units ≤ 20000 }
    requires range { HasRange core.now.size }
    requires sized { has_size core.now.size ≡ true }
    ensures { MatchOption result (IsWholeSize units core.now.size → ⊥) (λ p. IsWholeSize units core.now.size
        × (p.size ≡ size_in_dbu units core.now.size) × IsPitch units core.now.size p.size) }
{
    if !is_whole_size(&core.size, units) {
        return None;
    }
    let size = size_in_units(&core.size, units);
    Some(Pitch { size })
}
