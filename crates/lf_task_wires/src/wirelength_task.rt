//! The whole task.

ghost use Rattle.std.specs.Prelude.{◌≡◌, ◌≤◌, ◌⊎◌, IfErr, IfOk, List, Ok, Some, false, length, map, ℕ};
ghost use Rattle.lf_def.specs.Document.{Document, document_of};
ghost use Rattle.lf_floorplan.specs.declared.loaded.Loaded.{Loaded};
ghost use Rattle.lf_task_faults.specs.Faults.{BlamesWriter};
ghost use Rattle.lf_task_faults.specs.declared.faults.TextKind.TheVariants.{Def};
ghost use Rattle.lf_task_designs.specs.Designs.{IsDefRefusal, IsDesignIn, IsFileFault, IsLoadedIn, IsRefusedText};
ghost use Rattle.lf_task_files.specs.Inputs.{path_of};
ghost use Rattle.lf_task_files.specs.States.{IsNotOpened, IsViewedDesign};
ghost use Rattle.lf_task_wires.specs.Wirelengths.{IsFilesFault, IsMeasured, IsNotMeasured, IsReportOfFiles, IsReportOfTexts, IsWireFault};

use crate::kept_texts::kept_library;
use crate::measuring::report_of_texts;
use lf_io::{Sink, send};
use lf_lef::Library;
use lf_task_designs::{InputFiles, def_file, read_document, read_text};
use lf_task_faults::Fault;
use lf_task_files::{DesignInput, seen_of_document};
use std::alloc::Global;

/// Returns the report of the nets of a DEF text over the library of LEF texts.
fn report_of_text<'a, T: InputFiles>(
    alloc: Global,
    texts: &T,
    library: &Library,
    kept: &[Vec<u8>],
    inputs: DesignInput<'a>,
    text: &[u8],
) -> Result<Vec<u8>, Fault<'a>>
    requires { length kept.now ≤ length inputs.lefs.now }
    ensures ok { IfOk result (λ report. (document : Document) × (loaded : Loaded) × (seen : Loaded)
        × (document_of text.now ≡ Ok document) × IsLoadedIn inputs.entry.limits library.now document loaded
        × IsViewedDesign false (T.gives texts.now) (path_of inputs.entry.state) loaded seen
        × IsReportOfTexts (map (λ t. t.items) kept.now) text.now document seen report.items) }
    ensures err { IfErr result (λ fault.
        IsRefusedText Def inputs.entry.def.now text.now (IsDefRefusal inputs.entry.limits library.now text.now) fault
        ⊎ (((loaded : Loaded) × IsDesignIn inputs.entry.limits library.now text.now loaded
        × IsNotOpened (T.gives texts.now) (path_of inputs.entry.state) loaded fault)
        ⊎ IsWireFault (map (λ lef. lef.now) inputs.entry.lefs.now) (map (λ t. t.items) kept.now)
        inputs.entry.def.now text.now fault)) }
{
    let document = read_document(alloc, inputs.def, text)?;
    let seen = seen_of_document(alloc, texts, library, inputs, text, &document)?;
    report_of_texts(alloc, inputs, kept, text, &document, &seen)
}

/// Returns the report of the nets of a DEF file over the library of LEF texts.
fn report_of_file<'a, T: InputFiles>(
    alloc: Global,
    texts: &T,
    library: &Library,
    kept: &[Vec<u8>],
    inputs: DesignInput<'a>,
) -> Result<Vec<u8>, Fault<'a>>
    requires { length kept.now ≤ length inputs.lefs.now }
    ensures ok { IfOk result (λ report. (text : List ℕ) × T.gives texts.now inputs.entry.def.now (Some text)
        × ((document : Document) × (loaded : Loaded) × (seen : Loaded)
        × (document_of text ≡ Ok document) × IsLoadedIn inputs.entry.limits library.now document loaded
        × IsViewedDesign false (T.gives texts.now) (path_of inputs.entry.state) loaded seen
        × IsReportOfTexts (map (λ t. t.items) kept.now) text document seen report.items)) }
    ensures err { IfErr result (λ fault.
        IsFileFault (T.gives texts.now) Def inputs.entry.def.now (IsDefRefusal inputs.entry.limits library.now) fault
        ⊎ ((text : List ℕ) × T.gives texts.now inputs.entry.def.now (Some text)
        × (((loaded : Loaded) × IsDesignIn inputs.entry.limits library.now text loaded
        × IsNotOpened (T.gives texts.now) (path_of inputs.entry.state) loaded fault)
        ⊎ IsWireFault (map (λ lef. lef.now) inputs.entry.lefs.now) (map (λ t. t.items) kept.now)
        inputs.entry.def.now text fault))) }
{
    let text = read_text(texts, def_file(inputs.def))?;
    report_of_text(alloc, texts, library, kept, inputs, &text)
}

/// Returns the report of the nets of a design of files.
fn report_of_files<'a, T: InputFiles>(
    alloc: Global,
    texts: &T,
    inputs: DesignInput<'a>,
) -> Result<Vec<u8>, Fault<'a>>
    ensures ok { IfOk result (λ report. IsReportOfFiles inputs.entry.limits (T.gives texts.now) inputs.entry.def.now
        (map (λ lef. lef.now) inputs.entry.lefs.now) (path_of inputs.entry.state) report.items) }
    ensures err { IfErr result (IsFilesFault inputs.entry.limits (T.gives texts.now) inputs.entry.def.now
        (map (λ lef. lef.now) inputs.entry.lefs.now) (path_of inputs.entry.state)) }
{
    let mut kept = Vec::new(alloc);
    let library = kept_library(alloc, texts, &mut kept, inputs.lefs)?;
    report_of_file(alloc, texts, &library, &kept, inputs)
}

/// Writes the lengths of the wires of the design of these files: a line for each team of its frame,
/// and one for all. The cells are at the places of the DEF text, or at the working places of the
/// state if one is given. Returns the exit status 0.
///
/// `Err` is the first fault, in this order: the LEF files, the DEF file, the design, the state, the
/// pins of the LEF files, the nets of the DEF file, memory for the report, the writer. At most a
/// front of the report is then written.
pub fn wirelength<'a, T: InputFiles, W: Sink>(
    alloc: Global,
    texts: &T,
    inputs: DesignInput<'a>,
    writer: &mut W,
) -> Result<u8, Fault<'a>>
    ensures ok { IfOk result (IsMeasured inputs.entry.limits (T.gives texts.now) inputs.entry.def.now
        (map (λ lef. lef.now) inputs.entry.lefs.now)
        (path_of inputs.entry.state) (W.contents writer.old) (W.contents writer.new)) }
    ensures err { IfErr result (λ fault.
        IsNotMeasured inputs.entry.limits (T.gives texts.now) inputs.entry.def.now
        (map (λ lef. lef.now) inputs.entry.lefs.now)
        (path_of inputs.entry.state) (W.contents writer.old) (W.contents writer.new) fault
        × BlamesWriter fault (writer.new ≡ writer.old) (W.has_failed writer.old) (W.has_failed writer.new)) }
    ensures held { W.holds writer.new ≡ W.holds writer.old }
{
    let report = report_of_files(alloc, texts, inputs)?;
    match send(writer, &report) {
        Ok(()) => Ok(0),
        Err(_) => Err(Fault::Output),
    }
}
