//! The report of a design.

ghost use Rattle.std.specs.Prelude.{◌≡◌, ◌≤◌, ◌⊎◌, IfErr, IfOk, length, map};
ghost use Rattle.lf_def.specs.Contents.{contents};
ghost use Rattle.lf_task_faults.specs.declared.faults.Fault.TheVariants.{SetupOutOfMemory};
ghost use Rattle.lf_task_faults.specs.declared.faults.TextKind.TheVariants.{Def};
ghost use Rattle.lf_task_designs.specs.Designs.{IsRefusedText};
ghost use Rattle.lf_wire_nets.specs.NetRanges.{AreDesignNets};
ghost use Rattle.lf_wire_nets.specs.Texts.{facts_of};
ghost use Rattle.lf_task_wires.specs.Readings.{IsNetsRefusal};
ghost use Rattle.lf_task_wires.specs.Wirelengths.{IsReportOfNets, IsReportOfTexts, IsReportOverPins, IsWireFault};

use crate::second_reading::{nets_in, pins_of};
use lf_def::DefDoc;
use lf_floorplan::Loaded;
use lf_task_faults::Fault;
use lf_task_files::DesignInput;
use lf_task_reports::wire_report;
use lf_wire_nets::{DesignTexts, LibraryPins, bind_nets};
use std::alloc::{AllocError, Global};

/// Returns the report of the nets of a design. `Err` if an allocation fails.
fn report_of_nets(alloc: Global, texts: &DesignTexts) -> Result<Vec<u8>, AllocError>
    requires { AreDesignNets texts.now.nets.now }
    ensures { IfOk result (λ report. IsReportOfNets (facts_of texts.now) texts.now.nets.now report.items) }
{
    let Ok(bound) = bind_nets(alloc, texts) else {
        return Err(AllocError);
    };
    let teams = texts.loaded.frame.teams.len() + 1;
    let lengths = bound.netlist.lengths(alloc, &texts.loaded.cells, teams)?;
    wire_report(alloc, &texts.loaded.frame, &lengths, bound.supplies)
}

/// Returns the report of the nets of a DEF text, given the pins of the LEF texts. The text was read
/// from the file `path`, and the cells are at the places of `seen`.
fn report_over_pins<'a>(
    alloc: Global,
    path: &'a str,
    text: &[u8],
    document: &DefDoc<'_>,
    seen: &Loaded,
    macros: &LibraryPins<'_>,
) -> Result<Vec<u8>, Fault<'a>>
    ensures ok { IfOk result
        (λ report. IsReportOverPins macros.now text.now (contents document.now) seen.now report.items) }
    ensures err { IfErr result (λ fault. IsRefusedText Def path.now text.now (IsNetsRefusal text.now) fault
        ⊎ (fault ≡ SetupOutOfMemory)) }
{
    let nets = nets_in(alloc, path, text)?;
    let texts = DesignTexts {
        loaded: seen,
        macros,
        document,
        nets: &nets,
    };
    let report = report_of_nets(alloc, &texts)?;
    Ok(report)
}

/// Returns the report of the nets of a DEF text over LEF texts. The cells are at the places of
/// `seen`.
pub(crate) fn report_of_texts<'a>(
    alloc: Global,
    inputs: DesignInput<'a>,
    kept: &[Vec<u8>],
    text: &[u8],
    document: &DefDoc<'_>,
    seen: &Loaded,
) -> Result<Vec<u8>, Fault<'a>>
    requires { length kept.now ≤ length inputs.lefs.now }
    ensures ok { IfOk result (λ report. IsReportOfTexts (map (λ t. t.items) kept.now) text.now
        (contents document.now) seen.now report.items) }
    ensures err { IfErr result (IsWireFault (map (λ lef. lef.now) inputs.entry.lefs.now)
        (map (λ t. t.items) kept.now) inputs.entry.def.now text.now) }
{
    let macros = pins_of(alloc, inputs.lefs, kept)?;
    report_over_pins(alloc, inputs.def, text, document, seen, &macros)
}
