//! What is described of a design.

ghost use Rattle.std.specs.Prelude.{◌≡◌, All, length};
ghost use Rattle.lf_reports.specs.Reports.{IsListed, with_byte_name};

use lf_density::Density;
use lf_floorplan::Frame;
use lf_rules::{Broken, Listed};

/// The parts of a design that are described. The names of the FIXED components are in the order of
/// the DEF text. The movable cells are in loading order, each with the first rule that it breaks. The
/// density is that of the placed cells.
#[derive(Clone, Copy)]
pub(crate) struct DescribedDesign<'a> {
    pub(crate) frame: &'a Frame,
    pub(crate) names: &'a [&'a [u8]],
    pub(crate) cells: &'a [Listed<&'a [u8]>],
    pub(crate) verdicts: &'a [Option<Broken>],
    pub(crate) density: Density,
    pub(crate) ghost listed: { All (λ c. IsListed frame.now (with_byte_name c)) cells.now },
    pub(crate) ghost committed_checked: { length verdicts.now ≡ length cells.now },
}
