//! The refusal of the least number that finds an entry.

ghost use Rattle.std.specs.Prelude.{◌≡◌, ◌≤◌, ◌<◌, Some, None, IfOk, MatchOption};
ghost use Rattle.std.specs.Option.{option_copied};
ghost use Rattle.lf_lex.specs.declared.fault.FaultNumber.{FaultNumber};
ghost use Rattle.lf_lex.specs.declared.fault.FaultNumber.TheVariants.{TwoFences};
ghost use Rattle.lf_frame.specs.Entries.{NoneBreaks};
ghost use Rattle.lf_frame.specs.ClaimRefusals.{HasEarlierName};
ghost use Rattle.lf_frame.specs.MacroTables.{macros_of};
ghost use Rattle.lf_frame.specs.Refusals.{AreMacroFaults};
ghost use Rattle.lf_frame.specs.ClaimTables.{IsTableOf};
ghost use Rattle.lf_frame.specs.Findings.{inputs, units_in, Finds, finding_number, IsAccepted, IsLoadFault};

use crate::component_checks::{MacroFaults, macro_faults};
use crate::component_claims::ClaimTable;
use crate::findings::{
    bad_step, fences_overlap, no_macro, no_region, no_rows, no_site, no_size, no_units, not_whole,
    row_orient, rows_overlap, second_name, second_region, team_name, too_many, two_fences,
    units_of, vertical_row,
};
use crate::macro_numbers::MacroTable;
use lf_def::DefDoc;
use lf_floorplan::Limits;
use lf_lef::Library;
use lf_lex::{FaultNumber, LoadFault};
use std::alloc::{AllocError, Global};

/// The first of loading's refusals.
const FIRST: u8 = 7;

/// The number after the last of loading's refusals.
const END: u8 = 24;

/// Returns the refusal with this number.
fn numbered(number: u8) -> FaultNumber
    requires least { 7 ≤ number }
    requires most { number < 24 }
    ensures { finding_number result ≡ number }
{
    match number {
        7 => FaultNumber::NoUnits,
        8 => FaultNumber::NoSite,
        9 => FaultNumber::NoRows,
        10 => FaultNumber::VerticalRow,
        11 => FaultNumber::BadStep,
        12 => FaultNumber::RowOrient,
        13 => FaultNumber::RowsOverlap,
        14 => FaultNumber::NoMacro,
        15 => FaultNumber::NoSize,
        16 => FaultNumber::NotWhole,
        17 => FaultNumber::SecondName,
        18 => FaultNumber::SecondRegion,
        19 => FaultNumber::NoRegion,
        20 => FaultNumber::TeamName,
        21 => FaultNumber::FencesOverlap,
        22 => FaultNumber::TwoFences,
        _ => FaultNumber::TooMany,
    }
}

/// What is known of all components: who claims each, and the first ones whose macro is at fault.
#[derive(Clone, Copy)]
struct ComponentFacts<'x> {
    claims: &'x ClaimTable,
    faults: &'x MacroFaults,
}

/// Returns the name of the first entry at fault by this refusal, or `None` if it finds nothing.
/// `Err` if an allocation fails.
fn finding<'d>(
    alloc: Global,
    facts: &ComponentFacts<'_>,
    library: &'d Library,
    document: &'d DefDoc,
    limits: &Limits,
    number: FaultNumber,
) -> Result<Option<&'d [u8]>, AllocError>
    requires claims { IsTableOf document.now.regions document.now.groups document.now.components facts.now.claims.now }
    requires faults { AreMacroFaults library.now
        (units_in (inputs library.now document.now limits.now)) document.now.components facts.now.faults.now }
    requires order { number ≡ TwoFences → NoneBreaks HasEarlierName document.now.components }
    ensures { IfOk result (λ name. Finds (inputs library.now document.now limits.now) number (option_copied name)) }
{
    match number {
        FaultNumber::NoUnits => Ok(no_units(library, document, limits)),
        FaultNumber::NoSite => Ok(no_site(library, document, limits)),
        FaultNumber::NoRows => Ok(no_rows(library, document, limits)),
        FaultNumber::VerticalRow => Ok(vertical_row(library, document, limits)),
        FaultNumber::BadStep => Ok(bad_step(library, document, limits)),
        FaultNumber::RowOrient => Ok(row_orient(library, document, limits)),
        FaultNumber::RowsOverlap => rows_overlap(alloc, library, document, limits),
        FaultNumber::NoMacro => Ok(no_macro(facts.faults, library, document, limits)),
        FaultNumber::NoSize => Ok(no_size(facts.faults, library, document, limits)),
        FaultNumber::NotWhole => Ok(not_whole(facts.faults, library, document, limits)),
        FaultNumber::SecondName => Ok(second_name(facts.claims, library, document, limits)),
        FaultNumber::SecondRegion => second_region(alloc, library, document, limits),
        FaultNumber::NoRegion => no_region(alloc, library, document, limits),
        FaultNumber::TeamName => Ok(team_name(library, document, limits)),
        FaultNumber::FencesOverlap => fences_overlap(alloc, library, document, limits),
        FaultNumber::TwoFences => Ok(two_fences(facts.claims, library, document, limits)),
        FaultNumber::TooMany => Ok(too_many(library, document, limits)),
        FaultNumber::BadToken => Ok(None),
        FaultNumber::UnexpectedEnd => Ok(None),
        FaultNumber::Unexpected => Ok(None),
        FaultNumber::BadNumber => Ok(None),
        FaultNumber::WrongEnd => Ok(None),
        FaultNumber::UnknownStatement => Ok(None),
        FaultNumber::OutOfMemory => Ok(None),
    }
}

/// Returns the refusal of the least number that finds an entry, with the name of the first entry
/// that it finds. `None` if and only if no refusal finds anything. The claims and the macros must
/// be those of the document's components. `Err` if an allocation fails.
pub fn first_finding<'d>(
    alloc: Global,
    claims: &ClaimTable,
    macros: &MacroTable,
    library: &'d Library,
    document: &'d DefDoc,
    limits: &Limits,
) -> Result<Option<LoadFault<'d>>, AllocError>
    requires claims { IsTableOf document.now.regions document.now.groups document.now.components claims.now }
    requires macros { macros.now ≡ macros_of library.now document.now.components }
    ensures { IfOk result (λ found. MatchOption found (IsAccepted (inputs library.now document.now limits.now))
        (λ fault. IsLoadFault (inputs library.now document.now limits.now) fault)) }
{
    let components = document.components.as_slice();
    let faults = macro_faults(components, macros, library, units_of(document));
    let facts = ComponentFacts {
        claims,
        faults: &faults,
    };
    for number in FIRST..END {
        let refusal = numbered(number);
        if let Some(name) = finding(alloc, &facts, library, document, limits, refusal)? {
            return Ok(Some(LoadFault {
                number: refusal,
                line: None,
                name: Some(name),
            }));
        }
    }
    Ok(None)
}
