//! Violations in reports that name cells by their positions.

ghost use Rattle.std.specs.Prelude.{◌≡◌, ◌++◌, ℕ, All, IfOk, List, option_and_then, option_map, slice_get};
ghost use Rattle.std.specs.List.{cons_option};
ghost use Rattle.lf_floorplan.specs.Bounds.{IsDesignName};
ghost use Rattle.lf_rules.specs.declared.report_types.Violation.{Violation};
ghost use Rattle.lf_proto.specs.ReportText.{violation_in, violations_text};

use crate::report_text::put_violation;
use lf_rules::{Broken, Violation};
use lf_units::Name;
use std::alloc::{AllocError, Global};

/// The names of the cells in a report.
pub trait Names {
    /// The names, in loading order.
    ghost names: { Self → List (List ℕ) };

    /// Returns the name of the cell at that position. `None` if and only if there is no such cell.
    fn name(&self, own: usize) -> Option<&[u8]>
        ensures { option_map (λ name. name.now) result ≡ slice_get (names self.now) own };
}

/// Returns a copy of the name of the cell at that position. `None` if there is no such cell.
///
/// `Err` if an allocation fails.
fn name_of<N: Names>(alloc: Global, names: &N, own: usize) -> Result<Option<Name>, AllocError>
    ensures { IfOk result (λ name. name ≡ slice_get (N.names names.now) own) }
{
    match names.name(own) {
        Some(name) => Ok(Some(Name::from_slice(alloc, name)?)),
        None => Ok(None),
    }
}

/// Returns a copy of the name of the other cell. `None` if there is no other cell.
///
/// `Err` if an allocation fails.
fn other_name<N: Names>(
    alloc: Global,
    names: &N,
    other: Option<u32>,
) -> Result<Option<Name>, AllocError>
    ensures { IfOk result (λ name. name ≡ option_and_then (slice_get (N.names names.now)) other) }
{
    match other {
        Some(own) => name_of(alloc, names, own as usize),
        None => Ok(None),
    }
}

/// Returns the violation of the cell at that position, which breaks this rule first. `None` if
/// there is no such cell.
///
/// `Err` if an allocation fails.
fn violation_of<N: Names>(
    alloc: Global,
    names: &N,
    own: usize,
    broken: Broken,
) -> Result<Option<Violation>, AllocError>
    ensures { IfOk result (λ violation. violation ≡ violation_in (N.names names.now) own broken) }
{
    let Some(cell) = name_of(alloc, names, own)? else {
        return Ok(None);
    };
    let other = other_name(alloc, names, broken.other)?;
    Ok(Some(Violation {
        cell,
        rule: broken.rule,
        other,
    }))
}

/// Returns the violation of the cell at that position, given its verdict. `None` if it breaks no
/// rule.
///
/// `Err` if an allocation fails.
fn violation_by<N: Names>(
    alloc: Global,
    names: &N,
    own: usize,
    verdict: Option<Broken>,
) -> Result<Option<Violation>, AllocError>
    ensures { IfOk result (λ violation. violation ≡ option_and_then (violation_in (N.names names.now) own) verdict) }
{
    match verdict {
        Some(broken) => violation_of(alloc, names, own, broken),
        None => Ok(None),
    }
}

/// Appends the violation of the cell at that position to the text of a report, if its verdict is a
/// broken rule. Returns true if the text then has a violation; `later` says if it had one already.
/// The names are names of a text.
///
/// `Err` if an allocation fails; a part of it may then be appended.
pub fn put_verdict<N: Names>(
    alloc: Global,
    names: &N,
    own: usize,
    verdict: Option<Broken>,
    text: &mut Vec<u8>,
    later: bool,
) -> Result<bool, AllocError>
    requires { All IsDesignName (N.names names.now) }
    ensures { (rest : List Violation) → IfOk result (λ now. text.new.items ++ violations_text now rest
        ≡ text.old.items ++ violations_text later
        (cons_option (option_and_then (violation_in (N.names names.now) own) verdict) rest)) }
{
    let Some(violation) = violation_by(alloc, names, own, verdict)? else {
        return Ok(later);
    };
    put_violation(alloc, text, later, &violation)?;
    Ok(true)
}
