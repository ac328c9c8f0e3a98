//! The text of a report.

ghost use Rattle.std.specs.Prelude.{◌≡◌, ◌++◌, [], ◌∷◌, All, IfOk, List, OnOk, codes, false, string_bytes, true};
ghost use Rattle.serde_json.specs.Data.{no_items};
ghost use Rattle.serde_json.specs.View.{view};
ghost use Rattle.serde_json.specs.Written.{compact_text};
ghost use Rattle.lf_floorplan.specs.Bounds.{IsDesignName};
ghost use Rattle.lf_rules.specs.declared.report_types.Violation.{Violation};
ghost use Rattle.lf_rules.specs.Reports.{HasPrintableNames};
ghost use Rattle.lf_proto.specs.ReportText.{report_by, report_front, report_text, violation_data, violations_text};

use crate::reply::Text;
use lf_rules::{Report, Violation};
use lf_units::Name;
use serde_json::{Value, json};
use std::alloc::{AllocError, Global};
use std::str;

/// Returns the name as a string; each of its bytes is a visible character.
fn name_text(name: &Name) -> &str
    requires { IsDesignName name.now }
    ensures { result.now ≡ name.now }
{
    match str::from_utf8(name.as_bytes()) {
        Ok(text) => text,
        Err(_) => unreachable!(),
    }
}

/// Returns a violation as JSON.
///
/// `Err` if an allocation fails.
fn violation_value(alloc: Global, violation: &Violation) -> Result<Value, AllocError>
    requires { HasPrintableNames violation.now }
    ensures { IfOk result (λ v. view v ≡ violation_data violation.now) }
{
    let cell = name_text(&violation.cell);
    let rule = u64::from(violation.rule.number());
    match &violation.other {
        None => json!(in alloc; {"cell": cell, "rule": rule}),
        Some(name) => {
            let other = name_text(name);
            json!(in alloc; {"cell": cell, "other": other, "rule": rule})
        }
    }
}

/// Returns the text of a violation.
///
/// `Err` if an allocation fails.
fn violation_string(alloc: Global, violation: &Violation) -> Result<String, AllocError>
    requires { HasPrintableNames violation.now }
    ensures { IfOk result (λ text. string_bytes text ≡ compact_text (violation_data violation.now)) }
{
    violation_value(alloc, violation)?.to_string(alloc)
}

/// Appends a violation to the text of a report, after a comma if `later`. The names in it are names
/// of a text.
///
/// `Err` if an allocation fails; a part of it may then be appended.
pub fn put_violation(
    alloc: Global,
    text: &mut Vec<u8>,
    later: bool,
    violation: &Violation,
) -> Result<(), AllocError>
    requires { HasPrintableNames violation.now }
    ensures { (rest : List Violation) → OnOk result
        (text.new.items ++ violations_text true rest ≡ text.old.items ++ violations_text later (violation.now ∷ rest)) }
{
    if later {
        text.push(b',')?;
    }
    let piece = violation_string(alloc, violation)?;
    text.extend_from_slice(piece.as_bytes())?;
    Ok(())
}

/// Appends the violations in their order, with commas between them.
///
/// `Err` if an allocation fails.
fn put_violations(
    alloc: Global,
    text: &mut Vec<u8>,
    violations: &[Violation],
) -> Result<(), AllocError>
    requires { All HasPrintableNames violations.now }
    ensures { OnOk result
        (text.new.items ++ violations_text true [] ≡ text.old.items ++ violations_text false violations.now) }
{
    let mut later = false;
    for violation in violations {
        put_violation(alloc, text, later, violation)?;
        later = true;
    }
    Ok(())
}

/// Returns a report without violations as JSON.
///
/// `Err` if an allocation fails.
fn empty_value(alloc: Global, cells: u64, unplaced: u64) -> Result<Value, AllocError>
    ensures { IfOk result (λ v. view v ≡ report_by cells unplaced no_items) }
{
    let none = Value::Array(Vec::new(alloc));
    json!(in alloc; {"cells": cells, "unplaced": unplaced, "violations": none})
}

/// Returns the text of a report up to its first violation: that of a report without violations,
/// except the closing brackets.
///
/// `Err` if an allocation fails.
pub fn report_begun(alloc: Global, cells: usize, unplaced: usize) -> Result<Vec<u8>, AllocError>
    ensures { IfOk result (λ text. text.items ≡ report_front cells unplaced) }
{
    let mut text = empty_value(alloc, cells as u64, unplaced as u64)?
        .to_string(alloc)?
        .into_bytes();
    text.truncate(text.len() - 2);
    Ok(text)
}

/// Completes the text of a report that lacks only the closing brackets.
///
/// `Err` if an allocation fails.
pub fn report_closed(mut text: Vec<u8>) -> Result<Text, AllocError>
    ensures { IfOk result (λ closed. closed ≡ text.items ++ codes "]}") }
{
    text.extend_from_slice(b"]}")?;
    Ok(Text::from_bytes(text))
}

/// Returns the text of a report: compact JSON with the keys `cells`, `unplaced` and `violations`.
/// Each violation has `cell`, for Overlap `other`, and `rule`. The names in it are names of a text.
/// Violations are converted to JSON one at a time.
///
/// `Err` if an allocation fails.
#[tactic(auto, unfolding(crate::specs::ReportText::report_text))]
pub fn report_json(alloc: Global, report: &Report) -> Result<Text, AllocError>
    requires { All HasPrintableNames report.now.violations }
    ensures { IfOk result (λ text. text ≡ report_text report.now) }
{
    let mut text = report_begun(alloc, report.cells, report.unplaced)?;
    put_violations(alloc, &mut text, report.violations.as_slice())?;
    report_closed(text)
}
