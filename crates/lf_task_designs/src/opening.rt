//! The design of a DEF file, with what an export needs if one is requested.
//!
//! No function owns more than one of a library, a text, a document and a design: the proof handles
//! every drop at every return separately.

ghost use Rattle.std.specs.Prelude.{◌≡◌, Some, map, IfErr, IfOk};
ghost use Rattle.lf_task_faults.specs.declared.faults.TextKind.TheVariants.{Def};
ghost use Rattle.lf_def.specs.Contents.{contents};
ghost use Rattle.lf_def.specs.Document.{Document};
ghost use Rattle.lf_write.specs.Export.{clause_of};
ghost use Rattle.lf_task_designs.specs.Designs.{IsDefRefusal, IsDesignFault, IsFileFault, IsLoadedText, IsLoadRefusal, IsLoadedIn, IsOpenedOf, IsOpenedWithText, IsRefusedText};

use crate::input_files::InputFiles;
use crate::loading::{
    def_file, library_of, load_document, load_files, read_document, read_text, text_refusal,
};
use lf_def::DefDoc;
use lf_frame::{Limits, Loaded};
use lf_lef::Library;
use lf_lex::ReadError;
use lf_task_faults::Fault;
use lf_write::{KeptClauses, clauses_of};
use std::alloc::Global;

/// The parts of a document that are kept: its design, and the placement clauses of its components.
#[derive(Drop)]
struct LoadedDocument {
    loaded: Loaded,
    clauses: KeptClauses,
}

/// Loads a document, read from the text of the file `path`, over the library, and keeps the parts
/// needed.
fn open_document<'a>(
    alloc: Global,
    limits: Limits,
    library: &Library,
    path: &'a str,
    text: &[u8],
    document: &DefDoc,
) -> Result<LoadedDocument, Fault<'a>>
    ensures design { IfOk result (λ kept. IsLoadedIn limits library.now (contents document.now) kept.loaded) }
    ensures clauses { IfOk result
        (λ kept. kept.clauses ≡ map (clause_of document.now.text.now) document.now.components) }
    ensures err { IfErr result
        (IsRefusedText Def path.now text.now (IsLoadRefusal limits library.now (contents document.now))) }
{
    let loaded = load_document(alloc, limits, library, path, text, document)?;
    match clauses_of(alloc, document) {
        Ok(clauses) => Ok(LoadedDocument { loaded, clauses }),
        Err(_) => {
            let fault = ReadError::Memory.into_load_fault();
            Err(text_refusal(alloc, def_file(path), text, &fault))
        }
    }
}

/// Reads and loads a DEF text, of the file `path`, over the library, and keeps the parts needed.
fn open_text<'a>(
    alloc: Global,
    limits: Limits,
    library: &Library,
    path: &'a str,
    text: &[u8],
) -> Result<LoadedDocument, Fault<'a>>
    ensures ok { IfOk result
        (λ kept. (document : Document) × IsLoadedText limits text.now library.now document kept.clauses kept.loaded) }
    ensures err { IfErr result (IsRefusedText Def path.now text.now (IsDefRefusal limits library.now text.now)) }
{
    let document = read_document(alloc, path, text)?;
    open_document(alloc, limits, library, path, text, &document)
}

/// A DEF text, from which an exported text is made with committed places.
#[derive(Drop)]
pub struct SourceText {
    /// All bytes of its file.
    pub text: Vec<u8>,
    /// The placement clauses of its components.
    pub clauses: KeptClauses,
}

/// The design of a DEF text, and the text.
#[derive(Drop)]
struct DesignWithText {
    loaded: Loaded,
    original: SourceText,
}

/// Loads the design of a DEF text, of the file `path`, over the library, and keeps the text.
fn open_kept<'a>(
    alloc: Global,
    limits: Limits,
    library: &Library,
    path: &'a str,
    text: Vec<u8>,
) -> Result<DesignWithText, Fault<'a>>
    ensures text { IfOk result (λ opened. opened.original.text.items ≡ text.items) }
    ensures ok { IfOk result (λ opened. (document : Document)
        × IsLoadedText limits text.items library.now document opened.original.clauses opened.loaded) }
    ensures err { IfErr result (IsRefusedText Def path.now text.items (IsDefRefusal limits library.now text.items)) }
{
    let LoadedDocument { loaded, clauses } = open_text(alloc, limits, library, path, &text)?;
    let original = SourceText { text, clauses };
    Ok(DesignWithText { loaded, original })
}

/// Opens a DEF file over the library: loads its design, and keeps the text.
fn open_file<'a, T: InputFiles>(
    alloc: Global,
    limits: Limits,
    texts: &T,
    library: &Library,
    path: &'a str,
) -> Result<DesignWithText, Fault<'a>>
    ensures given { IfOk result (λ opened. T.gives texts.now path.now (Some opened.original.text.items)) }
    ensures ok { IfOk result (λ opened. (document : Document)
        × IsLoadedText limits opened.original.text.items library.now document opened.original.clauses opened.loaded) }
    ensures err { IfErr result (IsFileFault (T.gives texts.now) Def path.now (IsDefRefusal limits library.now)) }
{
    let text = read_text(texts, def_file(path))?;
    open_kept(alloc, limits, library, path, text)
}

/// Opens a DEF file over LEF files, given by their paths: loads the design, and keeps the DEF text.
fn open_with_text<'a, T: InputFiles>(
    alloc: Global,
    limits: Limits,
    texts: &T,
    def: &'a str,
    lefs: &[&'a str],
) -> Result<DesignWithText, Fault<'a>>
    ensures ok { IfOk result (IsOpenedWithText limits (T.gives texts.now) def.now (map (λ lef. lef.now) lefs.now)) }
    ensures err { IfErr result (IsDesignFault limits (T.gives texts.now) def.now (map (λ lef. lef.now) lefs.now)) }
{
    let library = library_of(alloc, texts, lefs)?;
    open_file(alloc, limits, texts, &library, def)
}

/// The design of a DEF text, and the text if it is kept.
#[derive(Drop)]
pub struct OpenedDesign {
    /// The design, each cell at its place in the text.
    pub loaded: Loaded,
    /// The text. It is a separate field, so that a floor can take the design.
    pub original: Option<SourceText>,
}

/// Opens a DEF file over LEF files, given by their paths: loads the design, and keeps the DEF text
/// if this is requested. The DEF file is opened after all LEF files.
pub fn open_design<'a, T: InputFiles>(
    alloc: Global,
    limits: Limits,
    texts: &T,
    def: &'a str,
    lefs: &[&'a str],
    is_text_kept: bool,
) -> Result<OpenedDesign, Fault<'a>>
    ensures ok { IfOk result (IsOpenedOf limits (T.gives texts.now) def.now (map (λ lef. lef.now) lefs.now)
        is_text_kept) }
    ensures err { IfErr result (IsDesignFault limits (T.gives texts.now) def.now (map (λ lef. lef.now) lefs.now)) }
{
    if is_text_kept {
        let DesignWithText { loaded, original } = open_with_text(alloc, limits, texts, def, lefs)?;
        return Ok(OpenedDesign {
            loaded,
            original: Some(original),
        });
    }
    Ok(OpenedDesign {
        loaded: load_files(alloc, limits, texts, def, lefs)?,
        original: None,
    })
}
