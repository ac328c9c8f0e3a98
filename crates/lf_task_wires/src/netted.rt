//! The design of files with its nets.
//!
//! The LEF texts, the document and its nets are dropped before a floor is made of the design.

ghost use Rattle.std.specs.Prelude.{◌≡◌, ◌≤◌, ◌⊎◌, ℕ, List, Ok, Some, IfErr, IfOk, IfSome, length, map, option_map};
ghost use Rattle.lf_def.specs.Contents.{contents};
ghost use Rattle.lf_def.specs.Document.{Document, document_of};
ghost use Rattle.lf_task_faults.specs.declared.faults.Fault.TheVariants.{SetupOutOfMemory};
ghost use Rattle.lf_task_faults.specs.declared.faults.TextKind.TheVariants.{Def};
ghost use Rattle.lf_task_designs.specs.Designs.{IsDefRefusal, IsDesignFault, IsFileFault, IsLoadRefusal, IsRefusedText};
ghost use Rattle.lf_task_wires.specs.Netted.{HasDesignParts, IsNettedDesign, IsNettedText, kept_clauses};
ghost use Rattle.lf_task_wires.specs.Wirelengths.{AreNetsOfTexts, IsWireFault};

use crate::kept_texts::kept_library;
use crate::second_reading::{nets_in, pins_of};
use lf_def::DefDoc;
use lf_floorplan::{Limits, Loaded};
use lf_lef::Library;
use lf_task_designs::{InputFiles, SourceText, def_file, load_document, read_document, read_text};
use lf_task_faults::Fault;
use lf_wire_length::Netlist;
use lf_wire_nets::{BoundNets, DesignTexts, bind_nets};
use lf_write::{KeptClauses, clauses_of};
use std::alloc::{AllocError, Global};

/// The files of a design that is opened with its nets.
#[derive(Clone, Copy)]
pub struct NettedInput<'a> {
    /// The path of the DEF file.
    pub def: &'a str,
    /// The paths of the LEF files, in the order in which they are read.
    pub lefs: &'a [&'a str],
    pub limits: Limits,
    /// Whether the DEF text is kept.
    pub is_text_kept: bool,
}

/// Binds the nets of the DEF text over the LEF texts.
fn nets_over_texts<'a>(
    alloc: Global,
    input: &NettedInput<'a>,
    kept: &[Vec<u8>],
    text: &[u8],
    document: &DefDoc<'_>,
    loaded: &Loaded,
) -> Result<Netlist, Fault<'a>>
    requires { length kept.now ≤ length input.now.lefs.now }
    ensures ok { IfOk result (λ netlist. AreNetsOfTexts (map (λ t. t.items) kept.now) text.now
        (contents document.now) loaded.now netlist.nets) }
    ensures err { IfErr result (IsWireFault (map (λ lef. lef.now) input.now.lefs.now)
        (map (λ t. t.items) kept.now) input.now.def.now text.now) }
{
    let macros = pins_of(alloc, input.lefs, kept)?;
    let nets = nets_in(alloc, input.def, text)?;
    let texts = DesignTexts {
        loaded,
        macros: &macros,
        document,
        nets: &nets,
    };
    match bind_nets(alloc, &texts) {
        Ok(bound) => {
            let BoundNets { netlist, .. } = bound;
            Ok(netlist)
        }
        Err(_) => Err(Fault::SetupOutOfMemory),
    }
}

/// What is kept of a DEF text besides its bytes.
#[derive(Drop)]
struct DesignParts<'a> {
    loaded: Loaded,
    netlist: Result<Netlist, Fault<'a>>,
    /// What an export needs of the components, if the text is kept.
    clauses: Option<KeptClauses>,
}

/// Returns the placement clauses of the document's components, if its text is kept.
fn clauses_for(
    alloc: Global,
    is_text_kept: bool,
    document: &DefDoc<'_>,
) -> Result<Option<KeptClauses>, AllocError>
    ensures { IfOk result
        (λ clauses. clauses ≡ kept_clauses is_text_kept document.now.text.now (contents document.now)) }
{
    if is_text_kept {
        return Ok(Some(clauses_of(alloc, document)?));
    }
    Ok(None)
}

/// Loads the design of the document and its nets over the LEF texts.
fn parts_of_document<'a>(
    alloc: Global,
    input: &NettedInput<'a>,
    library: &Library,
    kept: &[Vec<u8>],
    text: &[u8],
    document: &DefDoc<'_>,
) -> Result<DesignParts<'a>, Fault<'a>>
    requires kept { length kept.now ≤ length input.now.lefs.now }
    requires text { document.now.text.now ≡ text.now }
    ensures ok { IfOk result (HasDesignParts input.now.limits input.now.is_text_kept library.now
        (map (λ lef. lef.now) input.now.lefs.now) (map (λ t. t.items) kept.now) input.now.def.now text.now
        (contents document.now)) }
    ensures err { IfErr result (λ fault. IsRefusedText Def input.now.def.now text.now
        (IsLoadRefusal input.now.limits library.now (contents document.now)) fault
        ⊎ (fault ≡ SetupOutOfMemory)) }
{
    let loaded = load_document(alloc, input.limits, library, input.def, text, document)?;
    let netlist = nets_over_texts(alloc, input, kept, text, document, &loaded);
    let clauses = clauses_for(alloc, input.is_text_kept, document)?;
    Ok(DesignParts {
        loaded,
        netlist,
        clauses,
    })
}

/// Loads the design of the DEF text and its nets over the LEF texts.
fn parts_of_text<'a>(
    alloc: Global,
    input: &NettedInput<'a>,
    library: &Library,
    kept: &[Vec<u8>],
    text: &[u8],
) -> Result<DesignParts<'a>, Fault<'a>>
    requires { length kept.now ≤ length input.now.lefs.now }
    ensures ok { IfOk result (λ parts. (document : Document) × (document_of text.now ≡ Ok document)
        × HasDesignParts input.now.limits input.now.is_text_kept library.now
        (map (λ lef. lef.now) input.now.lefs.now) (map (λ t. t.items) kept.now) input.now.def.now text.now
        document parts) }
    ensures err { IfErr result (λ fault. IsRefusedText Def input.now.def.now text.now
        (IsDefRefusal input.now.limits library.now text.now) fault
        ⊎ (fault ≡ SetupOutOfMemory)) }
{
    let document = read_document(alloc, input.def, text)?;
    parts_of_document(alloc, input, library, kept, text, &document)
}

/// A design with its nets.
#[derive(Drop)]
pub struct NettedDesign<'a> {
    /// The design, each cell at its place in the text.
    pub loaded: Loaded,
    /// The nets; or the fault of the pins of the LEF files or, if they have none, of the nets of the
    /// DEF file. A caller may meet other faults first.
    pub netlist: Result<Netlist, Fault<'a>>,
    /// The DEF text, if it is kept.
    pub original: Option<SourceText>,
}

/// Returns the text, if its clauses are kept.
fn with_clauses(text: Vec<u8>, clauses: Option<KeptClauses>) -> Option<SourceText>
    ensures text { IfSome result (λ original. original.text.items ≡ text.items) }
    ensures clauses { option_map (λ original. original.clauses) result ≡ clauses }
{
    match clauses {
        Some(clauses) => Some(SourceText { text, clauses }),
        None => None,
    }
}

/// Loads the design of the DEF text and its nets over the LEF texts.
fn netted_text<'a>(
    alloc: Global,
    input: &NettedInput<'a>,
    library: &Library,
    kept: &[Vec<u8>],
    text: Vec<u8>,
) -> Result<NettedDesign<'a>, Fault<'a>>
    requires { length kept.now ≤ length input.now.lefs.now }
    ensures ok { IfOk result (IsNettedText input.now.limits input.now.is_text_kept library.now
        (map (λ lef. lef.now) input.now.lefs.now) (map (λ t. t.items) kept.now) input.now.def.now text.items) }
    ensures err { IfErr result (λ fault. IsRefusedText Def input.now.def.now text.items
        (IsDefRefusal input.now.limits library.now text.items) fault
        ⊎ (fault ≡ SetupOutOfMemory)) }
{
    let DesignParts {
        loaded,
        netlist,
        clauses,
    } = parts_of_text(alloc, input, library, kept, &text)?;
    Ok(NettedDesign {
        loaded,
        netlist,
        original: with_clauses(text, clauses),
    })
}

/// Opens the DEF file with its nets over the LEF texts.
fn netted_file<'a, T: InputFiles>(
    alloc: Global,
    texts: &T,
    input: &NettedInput<'a>,
    library: &Library,
    kept: &[Vec<u8>],
) -> Result<NettedDesign<'a>, Fault<'a>>
    requires { length kept.now ≤ length input.now.lefs.now }
    ensures ok { IfOk result (λ design. (text : List ℕ) × T.gives texts.now input.now.def.now (Some text)
        × IsNettedText input.now.limits input.now.is_text_kept library.now (map (λ lef. lef.now) input.now.lefs.now)
        (map (λ t. t.items) kept.now) input.now.def.now text design) }
    ensures err { IfErr result
        (IsFileFault (T.gives texts.now) Def input.now.def.now (IsDefRefusal input.now.limits library.now)) }
{
    let text = read_text(texts, def_file(input.def))?;
    netted_text(alloc, input, library, kept, text)
}

/// Opens the design of the files with its nets. The DEF text is kept if this is requested.
///
/// `Err` is the fault of the LEF files, of the DEF file or of the design, or a failed allocation. A
/// fault of the pins and nets is in the result, so that others of a task can come before it.
pub fn netted_design<'a, T: InputFiles>(
    alloc: Global,
    texts: &T,
    input: &NettedInput<'a>,
) -> Result<NettedDesign<'a>, Fault<'a>>
    ensures ok { IfOk result (IsNettedDesign input.now.limits (T.gives texts.now) input.now.def.now
        (map (λ lef. lef.now) input.now.lefs.now) input.now.is_text_kept) }
    ensures err { IfErr result (IsDesignFault input.now.limits (T.gives texts.now) input.now.def.now
        (map (λ lef. lef.now) input.now.lefs.now)) }
{
    let mut kept = Vec::new(alloc);
    let library = kept_library(alloc, texts, &mut kept, input.lefs)?;
    netted_file(alloc, texts, input, &library, &kept)
}
