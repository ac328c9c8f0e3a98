//! LEF texts: prefixes, several texts, and a long one. The contents of texts, and their bounds, are
//! tested in the rows of lefence_rows.

use crate::faults::at_line;
use lf_lef::{DEMO_LEF, Library, read_lef};
use lf_lex::FaultNumber;
use std::alloc::{AllocError, Global};
use std::test::Fail;

/// True if the library has this number of sites and macros.
fn has(library: &Library, sites: usize, macros: usize) -> bool {
    library.sites().len() == sites && library.macros().len() == macros
}

/// True if the text is read into the library, which then has this number of sites and macros.
fn reads(library: &mut Library, text: &[u8], sites: usize, macros: usize) -> bool {
    read_lef(library, text).is_ok() && has(library, sites, macros)
}

/// True if the text is refused for its end in the first line, and the library then has this number
/// of sites and macros.
fn refuses(library: &mut Library, text: &[u8], sites: usize, macros: usize) -> bool {
    let fault = read_lef(library, text).err();
    fault == at_line(FaultNumber::UnexpectedEnd, 1) && has(library, sites, macros)
}

/// A refused text leaves the library unchanged, whatever it had. The contents of the next text are
/// appended.
#[test]
fn keeps_what_it_had(rt: HostRuntime) {
    let mut library = Library::new(rt.alloc());
    let first = b"SITE s SIZE 1 BY 2 ; END s SITE s END s";
    assert!(rt; reads(&mut library, first, 1, 0));
    let refused = b"SITE t END t MACRO m END m SITE s SIZE 7 BY 8 ; END s BEGINEXT";
    assert!(rt; refuses(&mut library, refused, 1, 0) && library.find_site(b"t").is_none());
    assert!(rt; reads(&mut library, b"SITE t END t MACRO m END m", 2, 1));
    assert!(rt; library.find_site(b"t") == Some(1) && library.find_macro(b"m") == Some(0));
}

/// True if the library has only this site, 3 by 4 microns, and no macro.
fn has_the_old_site(library: &Library) -> bool {
    match library.sites() {
        [site] => {
            site.name.is(b"old")
                && !site.core
                && (site.size.x, site.size.y) == (3_000_000, 4_000_000)
                && (site.symmetry.x, site.symmetry.y) == (true, false)
                && library.find_site(b"old") == Some(0)
                && library.find_site(b"core").is_none()
                && library.find_macro(b"INV").is_none()
                && library.macros().is_empty()
        }
        _ => false,
    }
}

/// True if a text is read, or refused for a fault of its own with the library unchanged.
fn leaves_the_library(alloc: Global, text: &[u8]) -> bool {
    let mut library = Library::new(alloc);
    if read_lef(&mut library, b"SITE old SIZE 3 BY 4 ; SYMMETRY X ; END old").is_err() {
        return false;
    }
    match read_lef(&mut library, text) {
        Ok(()) => true,
        Err(fault) => fault.line.is_some() && has_the_old_site(&library),
    }
}

#[test]
fn returns_from_each_prefix(rt: HostRuntime) -> Result<(), Fail> {
    let mut prefix = Vec::new(rt.alloc());
    for byte in DEMO_LEF {
        assert!(rt; leaves_the_library(rt.alloc(), &prefix));
        prefix.push(*byte)?;
    }
    Ok(())
}

/// Appends the line of a macro with this number.
fn push_macro(alloc: Global, text: &mut Vec<u8>, number: u32) -> Result<(), AllocError> {
    let line = format!(in alloc;
        "MACRO M{number} CLASS CORE ; SIZE 0.4 BY 2.0 ; SITE core ; END M{number}\n"
    )?;
    text.extend_from_slice(line.as_bytes())
}

/// Appends 20,000 macros.
fn push_macros(alloc: Global, text: &mut Vec<u8>) -> Result<(), AllocError> {
    for number in 0..20_000u32 {
        push_macro(alloc, text, number)?;
    }
    Ok(())
}

/// True if the text of these macros is read into the library.
fn reads_macros(library: &mut Library, text: &[u8]) -> bool {
    read_lef(library, text).is_ok()
        && library.macros().len() == 20_000
        && library.find_macro(b"M19999") == Some(19_999)
}

/// True if the text, followed by the start of one more macro, is refused at its end, and the
/// library keeps its macros.
fn refuses_the_end(library: &mut Library, text: &[u8]) -> bool {
    let fault = read_lef(library, text).err();
    fault == at_line(FaultNumber::UnexpectedEnd, 20_001) && library.macros().len() == 20_000
}

/// A text of more than a megabyte, with many macros, is read to its end.
#[test]
fn reads_a_megabyte(rt: HostRuntime) -> Result<(), Fail> {
    let mut library = Library::new(rt.alloc());
    let mut text = Vec::new(rt.alloc());
    push_macros(rt.alloc(), &mut text)?;
    assert!(rt; text.len() > 1_000_000);
    assert!(rt; reads_macros(&mut library, &text));
    text.extend_from_slice(b"MACRO")?;
    assert!(rt; refuses_the_end(&mut library, &text));
    Ok(())
}
