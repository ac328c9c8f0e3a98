//! The design of files: the files are read, and the design is loaded.
//!
//! No function owns more than one of a library, a text, a document and a design: the proof handles
//! every drop at every return separately.

ghost use Rattle.std.specs.Prelude.{◌≡◌, Ok, Some, map, IfErr, IfOk, OnOk};
ghost use Rattle.lf_state_text.specs.Pieces.{text_of_chunks};
ghost use Rattle.lf_task_faults.specs.declared.faults.TextKind.TheVariants.{Lef, Def};
ghost use Rattle.lf_lef.specs.Library.{library_after};
ghost use Rattle.lf_def.specs.Contents.{contents};
ghost use Rattle.lf_def.specs.Document.{document_of};
ghost use Rattle.lf_frame.specs.Conflicts.{ConflictsWith, Conflict, no_fence};
ghost use Rattle.lf_task_faults.specs.Refusals.{IsReportedConflict};
ghost use Rattle.lf_task_designs.specs.Designs.{AddsFile, AreWithSlots, IsDefRefusal, IsDesignFault, IsDesignIn, IsDesignOf, IsFileDesign, IsFileFault};
ghost use Rattle.lf_task_designs.specs.Designs.{IsLefRefusal, IsLibraryFault, IsLibraryOf, IsLoadRefusal, IsLoadedIn, IsReadRefusal, IsRefusedText};
ghost use Rattle.lf_task_designs.specs.Designs.{IsTextDesign, IsTextFault, IsUnread, no_library};

use crate::input_files::InputFiles;
use lf_cli::Slots;
use lf_def::{DefDoc, read_def};
use lf_frame::{Limits, Loaded, conflicting_fences, load};
use lf_lef::{Library, read_lef};
use lf_lex::LoadFault;
use lf_task_faults::{Fault, TextFile, TextKind, TextRefusal, unread_fault};
use std::alloc::Global;
use std::collections::VecDeque;

/// The name of the built-in texts in place of a path.
pub(crate) const BUILT_IN: &str = "(built in)";

/// Returns the standard limits of a design, except that its teams have `slots` session slots.
pub fn limits_for(slots: Slots) -> Limits
    ensures { AreWithSlots slots.number result }
{
    let standard = Limits::standard();
    Limits {
        rows: standard.rows,
        fences: standard.fences,
        components: standard.components,
        sessions: slots.number,
        undo: standard.undo,
        revisions: standard.revisions,
    }
}

/// Reads the text of a file. `Err` if it cannot be read, with the system's reason if there is one,
/// or if an allocation fails.
pub fn read_text<'a, T: InputFiles>(texts: &T, file: TextFile<'a>) -> Result<Vec<u8>, Fault<'a>>
    ensures ok { IfOk result (λ text. T.gives texts.now file.entry.path.now (Some text.items)) }
    ensures err { IfErr result (IsUnread (T.gives texts.now) file.entry.kind file.entry.path.now) }
{
    match texts.text(file.path) {
        Ok(text) => Ok(text),
        Err(unread) => Err(unread_fault(file, unread)),
    }
}

/// Reads the text of a file in chunks. Errors are those of `read_text`.
pub fn read_file_chunks<'a, T: InputFiles>(
    alloc: Global,
    texts: &T,
    file: TextFile<'a>,
) -> Result<VecDeque<Vec<u8>>, Fault<'a>>
    ensures ok { IfOk result (λ pieces. T.gives texts.now file.entry.path.now (Some (text_of_chunks pieces.items))) }
    ensures err { IfErr result (IsUnread (T.gives texts.now) file.entry.kind file.entry.path.now) }
{
    match texts.pieces(alloc, file.path) {
        Ok(pieces) => Ok(pieces),
        Err(unread) => Err(unread_fault(file, unread)),
    }
}

/// Makes the description of a LEF file.
pub fn lef_file(path: &str) -> TextFile<'_>
    ensures kind { result.kind ≡ Lef }
    ensures path { result.path.now ≡ path.now }
{
    TextFile {
        kind: TextKind::Lef,
        path,
    }
}

/// Makes the description of the DEF file.
pub fn def_file(path: &str) -> TextFile<'_>
    ensures kind { result.kind ≡ Def }
    ensures path { result.path.now ≡ path.now }
{
    TextFile {
        kind: TextKind::Def,
        path,
    }
}

/// Makes the fault of a refused text. If memory for its details runs out, the fault is a failed
/// allocation.
pub fn text_refusal<'a>(
    alloc: Global,
    file: TextFile<'a>,
    text: &[u8],
    fault: &LoadFault<'_>,
) -> Fault<'a>
    ensures { IsRefusedText file.entry.kind file.entry.path.now text.now
        (IsReportedConflict fault.now no_fence) result }
{
    Fault::Refused {
        file,
        refusal: TextRefusal::new(alloc, file.kind, text, fault),
    }
}

/// Makes the fault of the DEF text of this path, whose document cannot be loaded.
fn load_fault<'a>(
    alloc: Global,
    path: &'a str,
    text: &[u8],
    document: &DefDoc,
    fault: &LoadFault<'_>,
) -> Fault<'a>
    ensures { (overlapping_one : Conflict) × ConflictsWith document.now.regions document.now.groups fault.now
        overlapping_one × IsRefusedText Def path.now text.now (IsReportedConflict fault.now overlapping_one) result }
{
    let file = def_file(path);
    let overlapping_one = conflicting_fences(document, fault);
    Fault::Refused {
        file,
        refusal: TextRefusal::with_conflict(alloc, file.kind, text, fault, &overlapping_one),
    }
}

/// Reads one more LEF text, of the file `path`, into the library.
pub fn add_text<'a>(
    alloc: Global,
    library: &mut Library,
    path: &'a str,
    text: &[u8],
) -> Result<(), Fault<'a>>
    ensures ok { OnOk result (library_after library.old text.now ≡ Ok library.new) }
    ensures err { IfErr result (IsRefusedText Lef path.now text.now (IsLefRefusal library.old text.now)) }
{
    match read_lef(library, text) {
        Ok(()) => Ok(()),
        Err(fault) => Err(text_refusal(alloc, lef_file(path), text, &fault)),
    }
}

/// Reads the LEF text of a file into the library.
fn add_file<'a, T: InputFiles>(
    alloc: Global,
    texts: &T,
    library: &mut Library,
    path: &'a str,
) -> Result<(), Fault<'a>>
    ensures ok { OnOk result (AddsFile (T.gives texts.now) path.now library.old library.new) }
    ensures err { IfErr result (IsFileFault (T.gives texts.now) Lef path.now (IsLefRefusal library.old)) }
{
    let text = read_text(texts, lef_file(path))?;
    add_text(alloc, library, path, &text)
}

/// Reads the LEF texts of the files in order, each completely before the next file is opened.
fn add_files<'a, T: InputFiles>(
    alloc: Global,
    texts: &T,
    library: &mut Library,
    paths: &[&'a str],
) -> Result<(), Fault<'a>>
    ensures ok { OnOk result
        (IsLibraryOf (T.gives texts.now) library.old (map (λ path. path.now) paths.now) library.new) }
    ensures err { IfErr result (IsLibraryFault (T.gives texts.now) library.old (map (λ path. path.now) paths.now)) }
{
    for path in paths {
        add_file(alloc, texts, library, *path)?;
    }
    Ok(())
}

/// Reads the library of LEF files, given by their paths. Each is read completely before the next
/// one is opened.
pub fn library_of<'a, T: InputFiles>(
    alloc: Global,
    texts: &T,
    lefs: &[&'a str],
) -> Result<Library, Fault<'a>>
    ensures ok { IfOk result
        (λ library. IsLibraryOf (T.gives texts.now) no_library (map (λ lef. lef.now) lefs.now) library) }
    ensures err { IfErr result (IsLibraryFault (T.gives texts.now) no_library (map (λ lef. lef.now) lefs.now)) }
{
    let mut library = Library::new(alloc);
    add_files(alloc, texts, &mut library, lefs)?;
    Ok(library)
}

/// Reads the document of a DEF text, of the file `path`.
pub fn read_document<'t, 'a>(
    alloc: Global,
    path: &'a str,
    text: &'t [u8],
) -> Result<DefDoc<'t>, Fault<'a>>
    ensures text { IfOk result (λ document. document.text.now ≡ text.now) }
    ensures ok { IfOk result (λ document. document_of text.now ≡ Ok (contents document)) }
    ensures err { IfErr result (IsRefusedText Def path.now text.now (IsReadRefusal text.now)) }
{
    match read_def(alloc, text) {
        Ok(document) => Ok(document),
        Err(fault) => Err(text_refusal(alloc, def_file(path), text, &fault)),
    }
}

/// Loads the design of a document, read from the text of the file `path`, over the library and
/// within these limits.
pub fn load_document<'a>(
    alloc: Global,
    limits: Limits,
    library: &Library,
    path: &'a str,
    text: &[u8],
    document: &DefDoc,
) -> Result<Loaded, Fault<'a>>
    ensures ok { IfOk result (IsLoadedIn limits library.now (contents document.now)) }
    ensures err { IfErr result
        (IsRefusedText Def path.now text.now (IsLoadRefusal limits library.now (contents document.now))) }
{
    match load(alloc, library, document, limits) {
        Ok(loaded) => Ok(loaded),
        Err(fault) => Err(load_fault(alloc, path, text, document, &fault)),
    }
}

/// Loads the design of a DEF text, of the file `path`, over the library.
pub fn load_text<'a>(
    alloc: Global,
    limits: Limits,
    library: &Library,
    path: &'a str,
    text: &[u8],
) -> Result<Loaded, Fault<'a>>
    ensures ok { IfOk result (IsDesignIn limits library.now text.now) }
    ensures err { IfErr result (IsRefusedText Def path.now text.now (IsDefRefusal limits library.now text.now)) }
{
    let document = read_document(alloc, path, text)?;
    load_document(alloc, limits, library, path, text, &document)
}

/// Loads the design of a DEF file over the library.
fn load_file<'a, T: InputFiles>(
    alloc: Global,
    limits: Limits,
    texts: &T,
    library: &Library,
    path: &'a str,
) -> Result<Loaded, Fault<'a>>
    ensures ok { IfOk result (IsFileDesign limits (T.gives texts.now) path.now library.now) }
    ensures err { IfErr result (IsFileFault (T.gives texts.now) Def path.now (IsDefRefusal limits library.now)) }
{
    let text = read_text(texts, def_file(path))?;
    load_text(alloc, limits, library, path, &text)
}

/// Loads the design of a DEF file over LEF files, given by their paths. The DEF file is opened
/// after all LEF files.
pub fn load_files<'a, T: InputFiles>(
    alloc: Global,
    limits: Limits,
    texts: &T,
    def: &'a str,
    lefs: &[&'a str],
) -> Result<Loaded, Fault<'a>>
    ensures ok { IfOk result (IsDesignOf limits (T.gives texts.now) def.now (map (λ lef. lef.now) lefs.now)) }
    ensures err { IfErr result (IsDesignFault limits (T.gives texts.now) def.now (map (λ lef. lef.now) lefs.now)) }
{
    let library = library_of(alloc, texts, lefs)?;
    load_file(alloc, limits, texts, &library, def)
}

/// Loads the design of a DEF text over a LEF text, both built in.
pub fn load_texts<'a>(
    alloc: Global,
    limits: Limits,
    def: &[u8],
    lef: &[u8],
) -> Result<Loaded, Fault<'a>>
    ensures ok { IfOk result (IsTextDesign limits def.now lef.now) }
    ensures err { IfErr result (IsTextFault limits def.now lef.now) }
{
    let mut library = Library::new(alloc);
    add_text(alloc, &mut library, BUILT_IN, lef)?;
    load_text(alloc, limits, &library, BUILT_IN, def)
}
