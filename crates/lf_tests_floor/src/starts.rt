//! Floors of designs over the built-in LEF text.

use lf_def::DEMO_DEF;
use lf_floor::Floor;
use lf_frame::Limits;
use lf_legalize::PlainSeeker;
use lf_tests_support::design_of;
use std::alloc::Global;
use std::test::Fail;

/// The floor of the design of this DEF text.
pub fn floor_of(alloc: Global, def: &[u8]) -> Result<Floor<PlainSeeker>, Fail> {
    let design = design_of(alloc, def, Limits::standard())?;
    Ok(Floor::start(alloc, design, PlainSeeker)?)
}

/// The floor of the built-in design.
pub fn floor(alloc: Global) -> Result<Floor<PlainSeeker>, Fail> {
    floor_of(alloc, DEMO_DEF)
}

/// The floor of the built-in design, on which each team can undo two changes.
pub fn floor_of_two_undos(alloc: Global) -> Result<Floor<PlainSeeker>, Fail> {
    let Some(limits) = Limits::checked(65_535, 1_024, 4_000_000, 8, 2, 4_000_000_000) else {
        return Err(Fail::from("limits"));
    };
    let design = design_of(alloc, DEMO_DEF, limits)?;
    Ok(Floor::start(alloc, design, PlainSeeker)?)
}
