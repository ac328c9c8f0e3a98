//! The description of a design of files.

ghost use Rattle.std.specs.Prelude.{◌≡◌, ◌⊎◌, false, List, ℕ, Ok, Some, IfErr, IfOk, map};
ghost use Rattle.lf_def.specs.Contents.{contents};
ghost use Rattle.lf_def.specs.Document.{Document, document_of};
ghost use Rattle.lf_floorplan.specs.declared.loaded.Loaded.{Loaded};
ghost use Rattle.lf_task_faults.specs.declared.faults.TextKind.TheVariants.{Def};
ghost use Rattle.lf_task_designs.specs.Designs.{IsDefRefusal, IsDesignFault, IsFileFault, IsLoadRefusal, IsLoadedIn, IsRefusedText};
ghost use Rattle.lf_task_faults.specs.Faults.{BlamesWriter};
ghost use Rattle.lf_task_files.specs.Exits.{IsDescribed, IsOpenDescribed, IsOpenUndescribed, IsViewDescribed, IsUndescribed, IsViewNotDescribed};
ghost use Rattle.lf_task_files.specs.States.{IsViewedDesign, IsNotOpened};
ghost use Rattle.lf_task_files.specs.Inputs.{path_of};

use crate::exit_status::{ILLEGAL_STATUS, LEGAL_STATUS};
use crate::inputs::DesignInput;
use crate::viewed::viewed_design;
use lf_def::DefDoc;
use lf_describe::{DescribeFailure, describe};
use lf_frame::Loaded;
use lf_io::Sink;
use lf_lef::Library;
use lf_task_designs::{InputFiles, def_file, library_of, load_document, read_document, read_text};
use lf_task_faults::Fault;
use std::alloc::Global;

/// Describes the design of the document, and returns the exit status.
fn describe_loaded<'a, W: Sink>(
    alloc: Global,
    loaded: &Loaded,
    document: &DefDoc<'_>,
    writer: &mut W,
) -> Result<u8, Fault<'a>>
    ensures ok { IfOk result
        (IsDescribed (contents document.now) loaded.now (W.contents writer.old) (W.contents writer.new)) }
    ensures err { IfErr result
        (λ fault. IsUndescribed (contents document.now) loaded.now (W.contents writer.old) (W.contents writer.new) fault
        × BlamesWriter fault (writer.new ≡ writer.old) (W.has_failed writer.old) (W.has_failed writer.new)) }
    ensures held { W.holds writer.new ≡ W.holds writer.old }
{
    match describe(alloc, loaded, document, writer) {
        Ok(true) => Ok(LEGAL_STATUS),
        Ok(false) => Ok(ILLEGAL_STATUS),
        Err(DescribeFailure::OutOfMemory) => Err(Fault::SetupOutOfMemory),
        Err(DescribeFailure::LineOutOfMemory) => Err(Fault::OutputOutOfMemory),
        Err(DescribeFailure::Output) => Err(Fault::Output),
    }
}

/// Loads the design of the DEF text's document over the library, with the places to describe.
pub fn seen_of_document<'a, T: InputFiles>(
    alloc: Global,
    texts: &T,
    library: &Library,
    inputs: DesignInput<'a>,
    text: &[u8],
    document: &DefDoc<'_>,
) -> Result<Loaded, Fault<'a>>
    ensures ok { IfOk result
        (λ seen. (loaded : Loaded) × IsLoadedIn inputs.entry.limits library.now (contents document.now) loaded
        × IsViewedDesign false (T.gives texts.now) (path_of inputs.entry.state) loaded seen) }
    ensures err { IfErr result (λ fault.
        IsRefusedText Def inputs.entry.def.now text.now
        (IsLoadRefusal inputs.entry.limits library.now (contents document.now)) fault
        ⊎ ((loaded : Loaded) × IsLoadedIn inputs.entry.limits library.now (contents document.now) loaded
        × IsNotOpened (T.gives texts.now) (path_of inputs.entry.state) loaded fault)) }
{
    let loaded = load_document(alloc, inputs.limits, library, inputs.def, text, document)?;
    viewed_design(alloc, texts, loaded, false, inputs.state)
}

/// Describes the design of the DEF text over the library.
fn describe_text<'a, T: InputFiles, W: Sink>(
    alloc: Global,
    texts: &T,
    library: &Library,
    inputs: DesignInput<'a>,
    text: &[u8],
    writer: &mut W,
) -> Result<u8, Fault<'a>>
    ensures ok { IfOk result
        (λ status. (document : Document) × (document_of text.now ≡ Ok document) × ((loaded : Loaded)
        × IsLoadedIn inputs.entry.limits library.now document loaded
        × IsViewDescribed (T.gives texts.now) (path_of inputs.entry.state) document loaded (W.contents writer.old)
        (W.contents writer.new) status)) }
    ensures err { IfErr result (λ fault.
        (IsRefusedText Def inputs.entry.def.now text.now (IsDefRefusal inputs.entry.limits library.now text.now) fault
        ⊎ ((document : Document) × (document_of text.now ≡ Ok document)
        × ((loaded : Loaded) × IsLoadedIn inputs.entry.limits library.now document loaded
        × IsViewNotDescribed (T.gives texts.now) (path_of inputs.entry.state) document loaded (W.contents writer.old)
        (W.contents writer.new) fault)))
        × BlamesWriter fault (writer.new ≡ writer.old) (W.has_failed writer.old) (W.has_failed writer.new)) }
    ensures held { W.holds writer.new ≡ W.holds writer.old }
{
    let document = read_document(alloc, inputs.def, text)?;
    let seen = seen_of_document(alloc, texts, library, inputs, text, &document)?;
    describe_loaded(alloc, &seen, &document, writer)
}

/// Describes the design of a DEF file over the library.
fn describe_file<'a, T: InputFiles, W: Sink>(
    alloc: Global,
    texts: &T,
    library: &Library,
    inputs: DesignInput<'a>,
    writer: &mut W,
) -> Result<u8, Fault<'a>>
    ensures ok { IfOk result
        (λ status. (text : List ℕ) × T.gives texts.now inputs.entry.def.now (Some text) × ((document : Document)
        × (document_of text ≡ Ok document)
        × ((loaded : Loaded) × IsLoadedIn inputs.entry.limits library.now document loaded
        × IsViewDescribed (T.gives texts.now) (path_of inputs.entry.state) document loaded (W.contents writer.old)
        (W.contents writer.new) status))) }
    ensures err { IfErr result (λ fault.
        (IsFileFault (T.gives texts.now) Def inputs.entry.def.now (IsDefRefusal inputs.entry.limits library.now) fault
        ⊎ ((text : List ℕ) × T.gives texts.now inputs.entry.def.now (Some text)
        × ((document : Document) × (document_of text ≡ Ok document)
        × ((loaded : Loaded) × IsLoadedIn inputs.entry.limits library.now document loaded
        × IsViewNotDescribed (T.gives texts.now) (path_of inputs.entry.state) document loaded (W.contents writer.old)
        (W.contents writer.new) fault))))
        × BlamesWriter fault (writer.new ≡ writer.old) (W.has_failed writer.old) (W.has_failed writer.new)) }
    ensures held { W.holds writer.new ≡ W.holds writer.old }
{
    let text = read_text(texts, def_file(inputs.def))?;
    describe_text(alloc, texts, library, inputs, &text, writer)
}

/// Writes the description of the design of these files. The cells are at the places of the DEF
/// text, or at the working places of the state if one is given. Returns the exit status: 0, or 4 if
/// the design is not fully legal. Errors are those of `check`.
pub fn describe_files<'a, T: InputFiles, W: Sink>(
    alloc: Global,
    texts: &T,
    inputs: DesignInput<'a>,
    writer: &mut W,
) -> Result<u8, Fault<'a>>
    ensures ok { IfOk result (IsOpenDescribed inputs.entry.limits (T.gives texts.now) inputs.entry.def.now
        (map (λ lef. lef.now) inputs.entry.lefs.now)
        (path_of inputs.entry.state) (W.contents writer.old) (W.contents writer.new)) }
    ensures err { IfErr result (λ fault.
        (IsDesignFault inputs.entry.limits (T.gives texts.now) inputs.entry.def.now
        (map (λ lef. lef.now) inputs.entry.lefs.now) fault
        ⊎ IsOpenUndescribed inputs.entry.limits (T.gives texts.now) inputs.entry.def.now
        (map (λ lef. lef.now) inputs.entry.lefs.now)
        (path_of inputs.entry.state) (W.contents writer.old) (W.contents writer.new) fault)
        × BlamesWriter fault (writer.new ≡ writer.old) (W.has_failed writer.old) (W.has_failed writer.new)) }
    ensures held { W.holds writer.new ≡ W.holds writer.old }
{
    let library = library_of(alloc, texts, inputs.lefs)?;
    describe_file(alloc, texts, &library, inputs, writer)
}
