//! The report of a loaded design.

ghost use Rattle.std.specs.Prelude.{◌≡◌, ◌++◌, [], ◌∷◌, ◌↔◌, IfErr, IfOk, IsTrue, List, OnErr, OnOk, Option, count_by, false};
ghost use Rattle.std.specs.Prelude.{is_none, is_some, length, map, take, true, ℕ};
ghost use Rattle.std.specs.Io.KnownBytes.{Appends};
ghost use Rattle.lf_floorplan.specs.declared.place.Place.{Place};
ghost use Rattle.lf_rules.specs.Legalizer.{Legalizer};
ghost use Rattle.lf_reports.specs.Reports.{AreVerdicts, IsFaultless, violations_in};
ghost use Rattle.lf_proto.specs.ReportText.{report_text, violations_text};
ghost use Rattle.lf_task_designs.specs.Checks.{IsLegalDesign, IsNotReported, def_places, design_report, report_line};
ghost use Rattle.lf_task_faults.specs.Faults.{BlamesWriter};
ghost use Rattle.lf_task_designs.specs.Reporting.{listed_as_loaded, cell_names_of};

use lf_frame::{Loaded, LoadedCells, Place};
use lf_io::{DeviceFault, Sink, send};
use lf_proto::{Names, Text, put_verdict, report_begun, report_closed};
use lf_reports::verdicts_of_all;
use lf_rules::Broken;
use lf_task_faults::Fault;
use std::alloc::{AllocError, Global};

/// The report of a design.
#[derive(Drop)]
struct DesignReport {
    text: Text,
    /// Whether the design is fully legal.
    legal: bool,
}

/// Returns the cells' places in the DEF text, in loading order. `Err` if an allocation fails.
fn def_places(alloc: Global, cells: &LoadedCells) -> Result<Vec<Option<Place>>, AllocError>
    ensures { IfOk result (λ places. places.items ≡ def_places cells.now) }
{
    let mut places = Vec::with_capacity(alloc, cells.len())?;
    for at in 0..cells.len() {
        let cell = cells.get(at).unwrap();
        places.push(cell.place)?;
    }
    Ok(places)
}

/// Counts the places that are `None`.
fn unplaced_in(places: &[Option<Place>]) -> usize
    ensures { result ≡ count_by is_none places.now }
{
    places.iter().filter(|place| place.is_none()).count()
}

/// Counts the verdicts that name a broken rule.
pub fn illegal_in(verdicts: &[Option<Broken>]) -> usize
    ensures { result ≡ count_by is_some verdicts.now }
{
    verdicts.iter().filter(|verdict| verdict.is_some()).count()
}

/// Returns whether the count of unplaced cells is 0 and no verdict names a broken rule.
fn is_faultless(unplaced: usize, verdicts: &[Option<Broken>]) -> bool
    ensures { (places : List (Option Place)) → unplaced ≡ count_by is_none places
        → IsTrue result ↔ IsFaultless places verdicts.now }
{
    unplaced == 0 && illegal_in(verdicts) == 0
}

/// The names of a design's cells.
#[derive(Clone, Copy)]
struct DesignNames<'a> {
    cells: &'a LoadedCells,
}

impl<'a> Names for DesignNames<'a> {
    ghost names = { λ s. cell_names_of s.cells.now };

    fn name(&self, own: usize) -> Option<&[u8]> {
        Some(self.cells.get(own)?.name)
    }
}

/// Appends the violations of the cells to the text, in loading order. `Err` if an allocation fails.
fn put_cells(
    alloc: Global,
    loaded: &Loaded,
    verdicts: &[Option<Broken>],
    text: &mut Vec<u8>,
) -> Result<(), AllocError>
    requires { length verdicts.now ≡ length loaded.now.cells }
    ensures { (l : Legalizer) → AreVerdicts l loaded.now.frame 0 (map listed_as_loaded loaded.now.cells) verdicts.now
        → OnOk result (text.new.items ++ violations_text true []
        ≡ text.old.items ++ violations_text false
        (violations_in l loaded.now.frame 0 (map listed_as_loaded loaded.now.cells))) }
{
    let names = DesignNames {
        cells: &loaded.cells,
    };
    let mut later = false;
    for own in 0..verdicts.len() {
        later = put_verdict(alloc, &names, own, verdicts[own], text, later)?;
    }
    Ok(())
}

/// Returns the text of the design's report, given the count of unplaced cells and the verdict of
/// each cell. `Err` if an allocation fails.
fn text_by_verdicts(
    alloc: Global,
    loaded: &Loaded,
    unplaced: usize,
    verdicts: &[Option<Broken>],
) -> Result<Text, AllocError>
    requires { length verdicts.now ≡ length loaded.now.cells }
    ensures { (l : Legalizer) → unplaced ≡ (design_report l loaded.now).unplaced
        → AreVerdicts l loaded.now.frame 0 (map listed_as_loaded loaded.now.cells) verdicts.now →
        IfOk result (λ text. text ≡ report_text (design_report l loaded.now)) }
{
    let mut text = report_begun(alloc, loaded.cells.len(), unplaced)?;
    put_cells(alloc, loaded, verdicts, &mut text)?;
    report_closed(text)
}

/// Makes the report of the design, each cell at its place in the DEF text. `Err` if an allocation
/// fails.
fn design_report(alloc: Global, loaded: &Loaded) -> Result<DesignReport, AllocError>
    ensures text { (l : Legalizer) → IfOk result (λ report. report.text ≡ report_text (design_report l loaded.now)) }
    ensures legal { IfOk result (λ report. IsTrue report.legal ↔ IsLegalDesign loaded.now) }
{
    let places = def_places(alloc, &loaded.cells)?;
    let verdicts = verdicts_of_all(alloc, loaded, &places)?;
    let unplaced = unplaced_in(&places);
    drop(places);
    let text = text_by_verdicts(alloc, loaded, unplaced, &verdicts)?;
    let legal = is_faultless(unplaced, &verdicts);
    Ok(DesignReport { text, legal })
}

/// Writes the text and a line feed.
fn put_line<W: Sink>(writer: &mut W, text: &[u8]) -> Result<(), DeviceFault>
    ensures ok { OnOk result (Appends (W.contents writer.old) (W.contents writer.new) (text.now ++ 10 ∷ [])) }
    ensures prefix { OnErr result
        ((n : ℕ) × Appends (W.contents writer.old) (W.contents writer.new) (take n (text.now ++ 10 ∷ []))) }
    ensures failed { OnErr result (W.has_failed writer.new ≡ true) }
    ensures writer_held { W.holds writer.new ≡ W.holds writer.old }
{
    send(writer, text)?;
    send(writer, b"\n")
}

/// Writes the report of the design, each cell at its place in the DEF text, and a line feed.
/// Returns whether the design is fully legal.
///
/// `Err` if an allocation or the writer fails; then a front of the text may be written.
pub fn report_design<'f, W: Sink>(
    alloc: Global,
    loaded: &Loaded,
    writer: &mut W,
) -> Result<bool, Fault<'f>>
    ensures text { (l : Legalizer)
        → OnOk result (Appends (W.contents writer.old) (W.contents writer.new) (report_line l loaded.now)) }
    ensures legal { IfOk result (λ legal. IsTrue legal ↔ IsLegalDesign loaded.now) }
    ensures err { IfErr result (IsNotReported loaded.now (W.contents writer.old) (W.contents writer.new)) }
    ensures blames { IfErr result
        (λ fault. BlamesWriter fault (writer.new ≡ writer.old) (W.has_failed writer.old) (W.has_failed writer.new)) }
    ensures writer_held { W.holds writer.new ≡ W.holds writer.old }
{
    let Ok(report) = design_report(alloc, loaded) else {
        return Err(Fault::SetupOutOfMemory);
    };
    match put_line(writer, report.text.as_bytes()) {
        Ok(()) => Ok(report.legal),
        Err(_) => Err(Fault::Output),
    }
}
