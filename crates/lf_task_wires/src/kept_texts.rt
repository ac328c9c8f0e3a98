//! The LEF texts of files, kept for a second reading.

ghost use Rattle.std.specs.Prelude.{◌≡◌, ◌++◌, ◌∷◌, ℕ, List, [], Some, Ok, IfErr, IfOk, OnOk, map};
ghost use Rattle.lf_lef.specs.Library.{library_after};
ghost use Rattle.lf_task_designs.specs.Designs.{IsFileFault, IsLefRefusal, IsLibraryFault, no_library};
ghost use Rattle.lf_task_faults.specs.declared.faults.TextKind.TheVariants.{Lef};
ghost use Rattle.lf_task_wires.specs.Readings.{IsKeptLibrary};

use lf_lef::Library;
use lf_task_designs::{InputFiles, add_text, lef_file, read_text};
use lf_task_faults::Fault;
use std::alloc::Global;

/// Reads the LEF text of a file into the library, and keeps it.
fn add_kept<'a, T: InputFiles>(
    alloc: Global,
    texts: &T,
    library: &mut Library,
    kept: &mut Vec<Vec<u8>>,
    path: &'a str,
) -> Result<(), Fault<'a>>
    ensures ok { OnOk result ((text : List ℕ) × T.gives texts.now path.now (Some text)
        × (library_after library.old text ≡ Ok library.new)
        × (map (λ t. t.items) kept.new.items ≡ map (λ t. t.items) kept.old.items ++ text ∷ [])) }
    ensures err { IfErr result (IsFileFault (T.gives texts.now) Lef path.now (IsLefRefusal library.old)) }
{
    let text = read_text(texts, lef_file(path))?;
    add_text(alloc, library, path, &text)?;
    match kept.push(text) {
        Ok(()) => Ok(()),
        Err(_) => Err(Fault::SetupOutOfMemory),
    }
}

/// Reads the LEF texts of the files in order into the library, each completely before the next file
/// is opened, and keeps them.
fn add_all<'a, T: InputFiles>(
    alloc: Global,
    texts: &T,
    library: &mut Library,
    kept: &mut Vec<Vec<u8>>,
    paths: &[&'a str],
) -> Result<(), Fault<'a>>
    requires { kept.old.items ≡ [] }
    ensures ok { OnOk result (IsKeptLibrary (T.gives texts.now) library.old (map (λ path. path.now) paths.now)
        (map (λ t. t.items) kept.new.items) library.new) }
    ensures err { IfErr result (IsLibraryFault (T.gives texts.now) library.old (map (λ path. path.now) paths.now)) }
{
    for path in paths {
        add_kept(alloc, texts, library, kept, *path)?;
    }
    Ok(())
}

/// Reads the library of LEF files, given by their paths, and keeps their texts.
pub(crate) fn kept_library<'a, T: InputFiles>(
    alloc: Global,
    texts: &T,
    kept: &mut Vec<Vec<u8>>,
    lefs: &[&'a str],
) -> Result<Library, Fault<'a>>
    requires { kept.old.items ≡ [] }
    ensures ok { IfOk result (λ library. IsKeptLibrary (T.gives texts.now) no_library (map (λ lef. lef.now) lefs.now)
        (map (λ t. t.items) kept.new.items) library) }
    ensures err { IfErr result (IsLibraryFault (T.gives texts.now) no_library (map (λ lef. lef.now) lefs.now)) }
{
    let mut library = Library::new(alloc);
    add_all(alloc, texts, &mut library, kept, lefs)?;
    Ok(library)
}
