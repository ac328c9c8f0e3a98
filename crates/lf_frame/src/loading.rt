//! Loading: a design from the library of the LEF texts and the document of the DEF text.

ghost use Rattle.std.specs.Prelude.{◌≡◌, ◌++◌, ◌⊎◌, IfOk, IfErr, All, filter_map, flat_map};
ghost use Rattle.lf_lex.specs.declared.fault.ReadError.TheVariants.{Memory};
ghost use Rattle.lf_lex.specs.Faults.{load_fault_of};
ghost use Rattle.lf_floorplan.specs.Design.{MakeDesign};
ghost use Rattle.lf_frame.specs.ClaimTables.{IsTableOf};
ghost use Rattle.lf_frame.specs.Findings.{inputs, units_in, IsAccepted, IsLoadFault};
ghost use Rattle.lf_frame.specs.MacroTables.{macros_of};
ghost use Rattle.lf_frame.specs.Loads.{fixed_box, blocked, FixedIsSized, AreInRange, IsFrameOf, IsLoadedFrom};

use crate::all_checks::first_finding;
use crate::cells::movable_cells;
use crate::component_claims::{ClaimTable, claim_table};
use crate::convert::{
    copy_header, copy_macros, copy_site, core_rows, fence_teams, fixed_boxes, push_blockages,
    soft_rects,
};
use crate::findings::units_of;
use crate::macro_numbers::{MacroTable, macro_table};
use crate::pitch::{core_pitch, sized_core_site};
use lf_def::DefDoc;
use lf_floorplan::{Frame, Limits, Loaded, LoadedCells};
use lf_lef::Library;
use lf_lex::{LoadFault, ReadError};
use lf_units::{Rect, Sequence};
use std::alloc::{AllocError, Global};

/// The ranges that the types of the library and the document guarantee.
fn ranges_kept(library: &Library, document: &DefDoc, limits: &Limits)
    ensures { AreInRange (inputs library.now document.now limits.now) }
{
    let _ = library.sites();
    let _ = library.macros();
    let _ = units_of(document);
}

/// Returns the boxes of FIXED components, and then the rectangles of blockages. `Err` if an
/// allocation fails.
fn obstacles_of(
    alloc: Global,
    library: &Library,
    document: &DefDoc,
    units: u32,
) -> Result<Sequence<Rect>, AllocError>
    requires sized { All (FixedIsSized library.now units) document.now.components }
    ensures { IfOk result (λ obstacles. obstacles ≡ filter_map
        (fixed_box library.now units) document.now.components ++ flat_map blocked document.now.blockages) }
{
    let mut obstacles = fixed_boxes(alloc, library, document.components.as_slice(), units)?;
    push_blockages(document.blockages.as_slice(), &mut obstacles)?;
    Ok(obstacles)
}

/// Returns the frame of a library and a document in which no refusal finds anything. `Err` if an
/// allocation fails.
fn frame_of(
    alloc: Global,
    library: &Library,
    document: &DefDoc,
    limits: &Limits,
) -> Result<Frame, AllocError>
    requires { IsAccepted (inputs library.now document.now limits.now) }
    ensures { IfOk result (λ f. IsFrameOf (inputs library.now document.now limits.now) f) }
{
    ranges_kept(library, document, limits);
    let core = sized_core_site(library, document.rows.as_slice()).unwrap();
    let units = units_of(document);
    let pitch = core_pitch(core, units).unwrap();
    Ok(Frame {
        site: copy_site(alloc, core)?,
        pitch: pitch.size,
        rows: core_rows(alloc, document.rows.as_slice(), core)?,
        teams: fence_teams(alloc, document.regions.as_slice())?,
        obstacles: obstacles_of(alloc, library, document, units)?,
        soft: soft_rects(alloc, document.blockages.as_slice())?,
        macros: copy_macros(alloc, library.macros())?,
        header: copy_header(alloc, &document.header, units)?,
        limits: *limits,
    })
}

/// Returns the design of this frame and these cells.
fn loaded_from(frame: Frame, cells: LoadedCells) -> Loaded
    requires { MakeDesign frame cells }
    ensures frame { result.frame ≡ frame }
    ensures cells { result.cells ≡ cells }
{
    Loaded { frame, cells }
}

/// Returns the design of a library and a document in which no refusal finds anything. `Err` if an
/// allocation fails.
fn accepted_design(
    alloc: Global,
    claims: &ClaimTable,
    macros: &MacroTable,
    library: &Library,
    document: &DefDoc,
    limits: &Limits,
) -> Result<Loaded, AllocError>
    requires claims { IsTableOf document.now.regions document.now.groups document.now.components claims.now }
    requires macros { macros.now ≡ macros_of library.now document.now.components }
    requires accepted { IsAccepted (inputs library.now document.now limits.now) }
    ensures { IfOk result (λ loaded. IsLoadedFrom (inputs library.now document.now limits.now) loaded) }
{
    ranges_kept(library, document, limits);
    let frame = frame_of(alloc, library, document, limits)?;
    let cells = movable_cells(alloc, claims, macros, library, document, limits)?;
    Ok(loaded_from(frame, cells))
}

/// Returns the claims on the names of all components, by all groups of the document. `Err` if an
/// allocation fails.
fn claims_of(alloc: Global, document: &DefDoc) -> Result<ClaimTable, AllocError>
    ensures { IfOk result
        (λ claims. IsTableOf document.now.regions document.now.groups document.now.components claims) }
{
    claim_table(
        alloc,
        document.components.as_slice(),
        document.groups.as_slice(),
        document.regions.as_slice(),
    )
}

/// Returns the fault for a failed allocation.
fn out_of_memory<'d>() -> LoadFault<'d>
    ensures { result ≡ load_fault_of Memory }
{
    ReadError::Memory.into_load_fault()
}

/// Loads the design of a library of LEF texts and the document of a DEF text, within the limits.
/// Unless an allocation fails, this succeeds if and only if no refusal finds anything.
///
/// `Err` is the refusal of the least number, from 7 on, that finds an entry. Its name is that of
/// the first entry that it finds in the order of the DEF text:
///
/// - NoUnits, NoRows: the design
/// - NoSite: a site
/// - VerticalRow, BadStep, RowOrient, RowsOverlap: a row
/// - NoMacro, NoSize: a macro
/// - NotWhole: the core site or a macro
/// - SecondName, TwoFences: a component
/// - SecondRegion, NoRegion, TeamName, FencesOverlap: a region
/// - TooMany: the first row, region or component beyond a limit, or a row that ends past x
///   2147483647
///
/// `Err(OutOfMemory)`, without a name, may replace any result. The name is borrowed from the
/// document or the library.
pub fn load<'d>(
    alloc: Global,
    library: &'d Library,
    document: &'d DefDoc,
    limits: Limits,
) -> Result<Loaded, LoadFault<'d>>
    ensures ok { IfOk result (λ loaded. IsLoadedFrom (inputs library.now document.now limits) loaded) }
    ensures err { IfErr result (λ fault. (fault ≡ load_fault_of Memory)
        ⊎ IsLoadFault (inputs library.now document.now limits) fault) }
{
    let Ok(claims) = claims_of(alloc, document) else {
        return Err(out_of_memory());
    };
    let Ok(macros) = macro_table(alloc, document.components.as_slice(), library) else {
        return Err(out_of_memory());
    };
    match first_finding(alloc, &claims, &macros, library, document, &limits) {
        Ok(Some(fault)) => return Err(fault),
        Ok(None) => {}
        Err(_) => return Err(out_of_memory()),
    }
    match accepted_design(alloc, &claims, &macros, library, document, &limits) {
        Ok(loaded) => Ok(loaded),
        Err(_) => Err(out_of_memory()),
    }
}
