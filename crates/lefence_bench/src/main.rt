//! Reads LEF and DEF texts, or loads a design, and prints how long that took, for `bench/`.
//!
//! It takes the words `lex FILE`, `lef FILE` or `def FILE` for one text, or `load LEF DEF` for a
//! design. It prints counts of what was read on standard output. On standard error it prints the
//! nanoseconds taken, without those for reading the files.
//!
//! No function owns more than one of the library, the document and the design: the proof handles
//! every drop at every return separately.
#![tactic(auto)]

use lf_def::{DefDoc, read_def};
use lf_frame::{Limits, Loaded, load};
use lf_lef::{Library, read_lef};
use lf_lex::{Lexer, LoadFault};
use std::alloc::Global;
use std::rt::{Clock, Files};
use std::time::Instant;
use std::{fs, io};

/// Prints the time since `start`.
fn print_time<R: Clock + Eprint>(rt: &R, start: &Instant) -> io::Result<()> {
    let taken = start.elapsed(rt)?;
    eprintln!(rt; "{} ns", taken.as_nanos())
}

/// Prints why a text or a design was refused.
fn print_fault<R: Print>(rt: &R, fault: &LoadFault<'_>) -> io::Result<()> {
    println!(rt; "{fault:?}")
}

/// Prints the words that the program takes.
fn print_usage<R: Eprint>(rt: &R) -> io::Result<()> {
    eprintln!(rt; "lex FILE, lef FILE, def FILE or load LEF DEF")
}

/// Counts the tokens of the text up to its end or its first fault.
fn count_tokens(text: &[u8]) -> u64 {
    let mut lexer = Lexer::new(text);
    for count in 0..u64::MAX {
        if !matches!(lexer.next_token(), Ok(Some(_))) {
            return count;
        }
    }
    u64::MAX
}

fn lex<R: Clock + Print + Eprint>(rt: &R, text: &[u8]) -> io::Result<()> {
    let start = Instant::now(rt)?;
    let tokens = count_tokens(text);
    print_time(rt, &start)?;
    println!(rt; "tokens {tokens}")
}

/// Counts the sites and macros of the LEF text.
fn count_library<'a>(alloc: Global, text: &'a [u8]) -> Result<(usize, usize), LoadFault<'a>> {
    let mut library = Library::new(alloc);
    read_lef(&mut library, text)?;
    Ok((library.sites().len(), library.macros().len()))
}

fn lef<R: AllocGlobal + Clock + Print + Eprint>(rt: &R, text: &[u8]) -> io::Result<()> {
    let start = Instant::now(rt)?;
    let counts = count_library(rt.alloc(), text);
    print_time(rt, &start)?;
    match counts {
        Ok((sites, macros)) => println!(rt; "sites {sites} macros {macros}"),
        Err(fault) => print_fault(rt, &fault),
    }
}

/// Counts the rows, components and groups of the DEF text.
fn count_document<'a>(
    alloc: Global,
    text: &'a [u8],
) -> Result<(usize, usize, usize), LoadFault<'a>> {
    let document = read_def(alloc, text)?;
    Ok((
        document.rows.len(),
        document.components.len(),
        document.groups.len(),
    ))
}

fn def<R: AllocGlobal + Clock + Print + Eprint>(rt: &R, text: &[u8]) -> io::Result<()> {
    let start = Instant::now(rt)?;
    let counts = count_document(rt.alloc(), text);
    print_time(rt, &start)?;
    match counts {
        Ok((rows, components, groups)) => {
            println!(rt; "rows {rows} components {components} groups {groups}")
        }
        Err(fault) => print_fault(rt, &fault),
    }
}

/// Counts the rows, fences and cells of the design.
fn counts_of(design: &Loaded) -> (usize, usize, usize) {
    (
        design.frame.rows.len(),
        design.frame.teams.len(),
        design.cells.len(),
    )
}

/// Loads the design of the library and the document, and counts its rows, fences and cells.
fn count_design<'a>(
    alloc: Global,
    library: &'a Library,
    document: &'a DefDoc,
) -> Result<(usize, usize, usize), LoadFault<'a>> {
    match load(alloc, library, document, Limits::standard()) {
        Ok(design) => Ok(counts_of(&design)),
        Err(fault) => Err(fault),
    }
}

/// Loads the design of the library and the document, and prints the nanoseconds of loading alone.
fn load_document<R: AllocGlobal + Clock + Print + Eprint>(
    rt: &R,
    library: &Library,
    document: &DefDoc,
) -> io::Result<()> {
    let start = Instant::now(rt)?;
    let counts = count_design(rt.alloc(), library, document);
    print_time(rt, &start)?;
    match counts {
        Ok((rows, fences, cells)) => println!(rt; "rows {rows} fences {fences} cells {cells}"),
        Err(fault) => print_fault(rt, &fault),
    }
}

/// Loads the design of the library and the DEF text.
fn load_text<R: AllocGlobal + Clock + Print + Eprint>(
    rt: &R,
    library: &Library,
    text: &[u8],
) -> io::Result<()> {
    match read_def(rt.alloc(), text) {
        Ok(document) => load_document(rt, library, &document),
        Err(fault) => print_fault(rt, &fault),
    }
}

/// Loads the design of the two texts.
fn load_design<R: AllocGlobal + Clock + Print + Eprint>(
    rt: &R,
    lef: &[u8],
    def: &[u8],
) -> io::Result<()> {
    let mut library = Library::new(rt.alloc());
    match read_lef(&mut library, lef) {
        Ok(()) => load_text(rt, &library, def),
        Err(fault) => print_fault(rt, &fault),
    }
}

/// Does the task on a file.
fn read<R: Files + AllocGlobal + Clock + Print + Eprint>(
    rt: &R,
    task: &str,
    file: &str,
) -> io::Result<()> {
    let text = fs::read(rt, file)?;
    match task {
        "lex" => lex(rt, &text),
        "lef" => lef(rt, &text),
        "def" => def(rt, &text),
        _ => print_usage(rt),
    }
}

fn main(rt: HostRuntime) -> io::Result<()> {
    let words: Vec<String> = std::env::args(&rt)?.collect(rt.alloc())?;
    match words.as_slice() {
        [_, task, file] => read(&rt, task.as_str(), file.as_str()),
        [_, task, lef, def] if task.as_str() == "load" => {
            let lef = fs::read(&rt, lef.as_str())?;
            let def = fs::read(&rt, def.as_str())?;
            load_design(&rt, &lef, &def)
        }
        _ => print_usage(&rt),
    }
}
