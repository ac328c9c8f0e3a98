//! Designs over the built-in LEF text.

use lf_def::{DefDoc, read_def};
use lf_frame::{Limits, Loaded, load};
use lf_lef::{DEMO_LEF, Library, read_lef};
use std::alloc::Global;
use std::test::Fail;

/// Loads the design of a library and a document within limits.
fn load_on(
    alloc: Global,
    library: &Library,
    document: &DefDoc,
    limits: Limits,
) -> Result<Loaded, Fail> {
    match load(alloc, library, document, limits) {
        Ok(design) => Ok(design),
        Err(_) => Err(Fail::from("a design")),
    }
}

/// Loads the design of a library and a DEF text within limits.
fn read_on(alloc: Global, library: &Library, def: &[u8], limits: Limits) -> Result<Loaded, Fail> {
    match read_def(alloc, def) {
        Ok(document) => load_on(alloc, library, &document, limits),
        Err(_) => Err(Fail::from("a DEF text")),
    }
}

/// Loads the design of the built-in LEF text and this DEF text within limits.
///
/// `Err` if the DEF text cannot be read or loaded, or an allocation fails.
pub fn design_of(alloc: Global, def: &[u8], limits: Limits) -> Result<Loaded, Fail> {
    let mut library = Library::new(alloc);
    match read_lef(&mut library, DEMO_LEF) {
        Ok(()) => read_on(alloc, &library, def, limits),
        Err(_) => Err(Fail::from("a LEF text")),
    }
}
