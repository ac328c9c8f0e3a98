//! The design of a row: the built-in texts with some of their lines replaced.

ghost use Rattle.std.specs.Prelude.{◌≡◌, ℕ, List, Option};
ghost use Rattle.lf_floorplan.specs.declared.limits.Limits.{Limits as TheLimits};
ghost use Rattle.lf_floorplan.specs.declared.place.Place.{Place};
ghost use Rattle.lf_frame.specs.Loads.{IsLoadedFrom};
ghost use Rattle.lf_lef.specs.Contents.{Contents};
ghost use Rattle.lf_frame.specs.Findings.{inputs};
ghost use Rattle.lf_floor_model.specs.Places.{AreCommittedPlaces};
ghost use Rattle.lf_floor_model.specs.States.{FloorState};
ghost use Rattle.lf_write.specs.Export.{AreExportable};

use crate::print_texts::{put_document, put_library};
use crate::run_requests::put_run;
use crate::shipped_program;
use crate::shipped_program::RowTexts;
use lf_app::{Fault, TextFile, TextKind, TextRefusal, serve_lines_within, write_fault};
use lf_def::{DEMO_DEF, DefDoc, read_def};
use lf_floor::Floor;
use lf_floor_model::places_follow_design;
use lf_frame::{Limits, Loaded, load};
use lf_io::{FromRead, ToWrite};
use lf_laws_roundtrip::loaded_cells_are_exportable;
use lf_lef::{DEMO_LEF, Library, read_lef};
use lf_legalize::{IndexSeeker, PlainSeeker, Seeker};
use lf_lex::LoadFault;
use lf_proto::report_json;
use lf_reports::check_all;
use lf_server::Ending;
use lf_tests_support::with_line;
use lf_write::export;
use std::alloc::{AllocError, Global};
use std::io;
use std::io::Write;

/// The most lines of requests in a row.
const MOST_LINES: u32 = 1_000;

/// The outputs that a row requests.
#[derive(Clone, Copy)]
pub struct Requested<'a> {
    /// Whether only the contents of its texts are requested.
    pub is_read: bool,
    /// Whether its report is requested.
    pub is_checked: bool,
    /// Whether only the seeker by index is used, and not the plain one too.
    pub is_by_index_alone: bool,
    /// Whether the exported text is requested after the replies.
    pub is_exported: bool,
    /// Whether the requests are passed as one list.
    pub is_run: bool,
    /// The requests.
    pub lines: &'a [u8],
}

/// The texts and the limits.
#[derive(Drop)]
pub struct Design {
    alloc: Global,
    lef: Vec<u8>,
    def: Vec<u8>,
    limits: Limits,
    /// Whether the limits differ from the standard ones.
    is_limited: bool,
}

/// Returns the line, with a line feed for each `~` in it.
fn with_feeds(alloc: Global, line: &[u8]) -> Result<Vec<u8>, AllocError> {
    let mut new = Vec::new(alloc);
    for byte in line {
        new.push(if *byte == b'~' { b'\n' } else { *byte })?;
    }
    Ok(new)
}

/// Returns the first `count` lines of the text.
fn first_lines(alloc: Global, text: &[u8], count: usize) -> Result<Vec<u8>, AllocError> {
    let mut new = Vec::new(alloc);
    for (i, line) in text.split(|byte| *byte == b'\n').enumerate() {
        if i < count {
            new.extend_from_slice(line)?;
            new.push(b'\n')?;
        }
    }
    Ok(new)
}

/// Writes the line of a refusal.
fn put_fault<W: Write>(alloc: Global, writer: &mut W, refusal: &LoadFault<'_>) -> io::Result<()> {
    let fault = Fault::Refused {
        file: TextFile {
            kind: TextKind::Def,
            path: "row",
        },
        refusal: TextRefusal::new(alloc, TextKind::Def, b"", refusal),
    };
    match write_fault(&mut ToWrite::new(writer), &fault) {
        Ok(()) => Ok(()),
        Err(_) => Err(io::Error::from(io::ErrorKind::Other)),
    }
}

impl Design {
    /// Makes the built-in design.
    pub fn new(alloc: Global) -> Result<Design, AllocError> {
        Ok(Design {
            alloc,
            lef: Vec::from_slice(alloc, DEMO_LEF)?,
            def: Vec::from_slice(alloc, DEMO_DEF)?,
            limits: Limits::standard(),
            is_limited: false,
        })
    }

    /// Replaces a line of the LEF text.
    pub fn set_lef(&mut self, number: usize, line: &[u8]) -> Result<(), AllocError> {
        let line = with_feeds(self.alloc, line)?;
        self.lef = with_line(self.alloc, &self.lef, number, &line)?;
        Ok(())
    }

    /// Replaces a line of the DEF text.
    pub fn set_def(&mut self, number: usize, line: &[u8]) -> Result<(), AllocError> {
        let line = with_feeds(self.alloc, line)?;
        self.def = with_line(self.alloc, &self.def, number, &line)?;
        Ok(())
    }

    /// Keeps the first `count` lines of the LEF text.
    pub fn cut_lef(&mut self, count: usize) -> Result<(), AllocError> {
        self.lef = first_lines(self.alloc, &self.lef, count)?;
        Ok(())
    }

    /// Keeps the first `count` lines of the DEF text.
    pub fn cut_def(&mut self, count: usize) -> Result<(), AllocError> {
        self.def = first_lines(self.alloc, &self.def, count)?;
        Ok(())
    }

    /// Sets the limits.
    pub fn set_limits(&mut self, limits: Limits) {
        self.limits = limits;
        self.is_limited = true;
    }

    /// Writes the output of the design: its refusal; or what its texts contain, if requested; or
    /// `loaded`, its report if requested, the replies, and the exported text if requested. Replies
    /// and text by the plain seeker are written too if they differ.
    pub fn answer<W: Write>(&self, requested: &Requested<'_>, writer: &mut W) -> io::Result<()> {
        let mut library = Library::new(self.alloc);
        match read_lef(&mut library, &self.lef) {
            Ok(()) => self.answer_on(&library, requested, writer),
            Err(fault) => put_fault(self.alloc, writer, &fault),
        }
    }

    /// Does the same, given the library of the LEF text.
    fn answer_on<W: Write>(
        &self,
        library: &Library,
        requested: &Requested<'_>,
        writer: &mut W,
    ) -> io::Result<()> {
        match read_def(self.alloc, &self.def) {
            Ok(document) => self.answer_over(library, &document, requested, writer),
            Err(fault) => put_fault(self.alloc, writer, &fault),
        }
    }

    /// Does the same, given also the document of the DEF text.
    fn answer_over<W: Write>(
        &self,
        library: &Library,
        document: &DefDoc,
        requested: &Requested<'_>,
        writer: &mut W,
    ) -> io::Result<()> {
        if requested.is_read {
            put_library(writer, library)?;
            return put_document(writer, document);
        }
        match load(self.alloc, library, document, self.limits) {
            Ok(loaded) => {
                self.put_head(&loaded, requested, writer)?;
                let replies = replies_by_index(self.alloc, loaded, document, requested)?;
                self.put_shipped(requested, &replies, writer)?;
                self.compare(library, document, requested, &replies, writer)
            }
            Err(fault) => put_fault(self.alloc, writer, &fault),
        }
    }

    /// Returns the texts, as passed to the program.
    fn texts(&self) -> RowTexts<'_> {
        RowTexts {
            alloc: self.alloc,
            lef: &self.lef,
            def: &self.def,
        }
    }

    /// Writes `loaded`, and the report if requested: that of `lefence check`, and that of the
    /// library if it differs.
    fn put_head<W: Write>(
        &self,
        loaded: &Loaded,
        requested: &Requested<'_>,
        writer: &mut W,
    ) -> io::Result<()> {
        writer.write_all(b"loaded\n")?;
        if !requested.is_checked {
            return Ok(());
        }
        let report = report_line(self.alloc, loaded)?;
        if self.is_limited {
            return writer.write_all(&report);
        }
        let shipped = shipped_program::report(&self.texts())?;
        put_both(writer, &shipped, b"but by check_all\n", &report)
    }

    /// Writes the replies, with the exported text if requested. In that case they are those of
    /// `lefence replay`, and those of the library too if they differ.
    fn put_shipped<W: Write>(
        &self,
        requested: &Requested<'_>,
        replies: &[u8],
        writer: &mut W,
    ) -> io::Result<()> {
        if self.is_limited || !requested.is_exported {
            return writer.write_all(replies);
        }
        let shipped = shipped_program::replay(&self.texts(), requested.lines)?;
        let mut text = shipped.written;
        put_lines(&mut text, &shipped.exported)?;
        put_both(writer, &text, b"but by export\n", replies)
    }

    /// Writes the replies by the plain seeker, if it is used and its replies differ.
    fn compare<W: Write>(
        &self,
        library: &Library,
        document: &DefDoc,
        requested: &Requested<'_>,
        replies: &[u8],
        writer: &mut W,
    ) -> io::Result<()> {
        if requested.is_by_index_alone {
            return Ok(());
        }
        let Ok(loaded) = load(self.alloc, library, document, self.limits) else {
            return writer.write_all(b"not loaded again\n");
        };
        let plain = replies_by(self.alloc, loaded, document, PlainSeeker, requested)?;
        if plain.as_slice() == replies {
            return Ok(());
        }
        writer.write_all(b"but by the plain seeker\n")?;
        writer.write_all(&plain)
    }
}

/// Returns the text of the report of the design as loaded, and a line feed.
fn report_line(alloc: Global, loaded: &Loaded) -> Result<Vec<u8>, AllocError> {
    let mut line = Vec::new(alloc);
    let mut places = Vec::new(alloc);
    for at in 0..loaded.cells.len() {
        if let Some(cell) = loaded.cells.get(at) {
            places.push(cell.place)?;
        }
    }
    if places.len() != loaded.cells.len() {
        return Ok(line);
    }
    let report = check_all(alloc, loaded, &places)?;
    line.extend_from_slice(report_json(alloc, &report)?.as_bytes())?;
    line.push(b'\n')?;
    Ok(line)
}

/// Writes the text. If the other text differs, writes these words and the other text.
fn put_both<W: Write>(writer: &mut W, text: &[u8], words: &[u8], other: &[u8]) -> io::Result<()> {
    writer.write_all(text)?;
    if text == other {
        return Ok(());
    }
    writer.write_all(words)?;
    writer.write_all(other)
}

/// Returns the text of the document with the committed places of the floor.
fn exported<S: Seeker + Drop>(
    alloc: Global,
    floor: &Floor<S>,
    document: &DefDoc<'_>,
) -> Result<Vec<u8>, AllocError>
    requires fits { (places : List (ℕ × Option Place)) → AreCommittedPlaces floor.now places
        → AreExportable document.now.components places }
{
    let places = floor.committed_places()?;
    export(alloc, document, &places)
}

/// Appends the lines of a text to the replies, each after a bar.
fn put_lines(replies: &mut Vec<u8>, text: &[u8]) -> Result<(), AllocError> {
    for line in text.split(|byte| *byte == b'\n') {
        replies.push(b'|')?;
        replies.extend_from_slice(line)?;
        replies.push(b'\n')?;
    }
    Ok(())
}

/// Appends the exported text to the replies.
fn put_export<S: Seeker + Drop>(
    alloc: Global,
    floor: &Floor<S>,
    document: &DefDoc<'_>,
    replies: &mut Vec<u8>,
) -> Result<(), AllocError>
    requires fits { (places : List (ℕ × Option Place)) → AreCommittedPlaces floor.now places
        → AreExportable document.now.components places }
{
    let text = exported(alloc, floor, document)?;
    put_lines(replies, &text)
}

/// Appends the replies to the lines, answered one by one, or run as one list if requested.
fn put_answers<S: Seeker + Drop>(
    alloc: Global,
    floor: &mut Floor<S>,
    requested: &Requested<'_>,
    replies: &mut Vec<u8>,
) -> Result<(), AllocError>
    ensures { floor.new.components ≡ floor.old.components }
{
    if requested.is_run {
        return put_run(alloc, floor, requested.lines, replies);
    }
    let mut reader = requested.lines;
    let mut source = FromRead::new(&mut reader);
    let mut sink = ToWrite::new(replies);
    match serve_lines_within(alloc, floor, &mut source, &mut sink, MOST_LINES) {
        // (writing to a list of replies fails only if an allocation fails)
        Ending::OutOfMemory | Ending::WriteFault => Err(AllocError),
        _ => Ok(()),
    }
}

/// Appends the replies to the lines on the floor of the document's design, and the exported text if
/// requested.
fn put_replies<S: Seeker + Drop>(
    alloc: Global,
    floor: &mut Floor<S>,
    document: &DefDoc<'_>,
    requested: &Requested<'_>,
    replies: &mut Vec<u8>,
) -> Result<(), AllocError>
    requires fits { (s : FloorState) (places : List (ℕ × Option Place)) → s.components ≡ floor.old.components
        → AreCommittedPlaces s places
        → AreExportable document.now.components places }
{
    put_answers(alloc, floor, requested, replies)?;
    if !requested.is_exported {
        return Ok(());
    }
    put_export(alloc, floor, document, replies)
}

/// Returns the replies to the lines on the floor of the document's design, with places found by
/// this seeker, and the exported text if requested.
fn replies_by<S: Seeker + Drop>(
    alloc: Global,
    loaded: Loaded,
    document: &DefDoc<'_>,
    seeker: S,
    requested: &Requested<'_>,
) -> Result<Vec<u8>, AllocError>
    requires loads { (library : Contents) × (limits : TheLimits)
        × IsLoadedFrom (inputs library document.now limits) loaded }
{
    loaded_cells_are_exportable();
    places_follow_design();
    let mut floor = Floor::start(alloc, loaded, seeker)?;
    let mut replies = Vec::new(alloc);
    match put_replies(alloc, &mut floor, document, requested, &mut replies) {
        Ok(()) => Ok(replies),
        Err(error) => Err(error),
    }
}

/// Does the same with the index of the rows.
fn replies_by_index(
    alloc: Global,
    loaded: Loaded,
    document: &DefDoc<'_>,
    requested: &Requested<'_>,
) -> Result<Vec<u8>, AllocError>
    requires loads { (library : Contents) × (limits : TheLimits)
        × IsLoadedFrom (inputs library document.now limits) loaded }
{
    let seeker = IndexSeeker::build(alloc, &loaded.frame)?;
    replies_by(alloc, loaded, document, seeker, requested)
}
