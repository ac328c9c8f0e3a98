//! The description of a loaded design.

ghost use Rattle.std.specs.Prelude.{◌≡◌, ◌≤◌, ◌↔◌, ◌||◌, ℕ, All, IfErr, IfOk, IsTrue, OnErr, OnOk, length, map, take};
ghost use Rattle.std.specs.Io.KnownBytes.{Appends};
ghost use Rattle.lf_def.specs.Contents.{contents};
ghost use Rattle.lf_rules.specs.declared.report_types.Report.{Report};
ghost use Rattle.lf_rules.specs.FullyLegal.{IsFullyLegal, design_cells_at};
ghost use Rattle.lf_rules.specs.Legalizer.{Legalizer};
ghost use Rattle.lf_rules.specs.Reports.{IsClean};
ghost use Rattle.lf_reports.specs.Reports.{IsListed, with_byte_name, report_of};
ghost use Rattle.lf_describe.specs.Description.{AppendsDescription, AppendsDescriptionFirst, AppendsFirst, AppendsLines, fixed_names as names_of, places_in_text};
ghost use Rattle.lf_describe.specs.Parts.{Counts, parts_text};
ghost use Rattle.lf_describe.specs.Written.{AppendsFront, is_line_writers, is_output, is_writers};

use crate::counts::{density_in, is_clean, listed, verdicts_of};
use crate::described::DescribedDesign;
use crate::line_kinds::{counts_in, put_parts};
use crate::line_output::LineFault;
use lf_def::{Component, DefDoc, is_fixed};
use lf_floorplan::{Frame, Loaded, cell_is_sized};
use lf_io::Sink;
use lf_rules::{Listed, legalizer_exists};
use lf_segments::FrameIndex;
use std::alloc::{AllocError, Global};

/// Why a design was not described.
#[derive(Clone, Copy, Debug, PartialEq, Eq)]
pub enum DescribeFailure {
    /// An allocation failed before the first line; nothing was written.
    OutOfMemory,
    /// An allocation for a line failed; earlier lines may have been written.
    LineOutOfMemory,
    /// The writer failed; a front of the description may have been written.
    Output,
}

/// Returns the names of the FIXED components, in the order of the DEF text. `Err` if an allocation
/// fails.
fn fixed_names<'a>(
    alloc: Global,
    components: &'a [Component<'_>],
) -> Result<Vec<&'a [u8]>, AllocError>
    ensures { IfOk result (λ names. map (λ n. n.now) names.items ≡ names_of components.now) }
{
    let mut names = Vec::new(alloc);
    for component in components {
        if is_fixed(component) {
            names.push(component.name())?;
        }
    }
    Ok(names)
}

/// Converts a fault of the lines into the error of a description.
fn line_failure(fault: LineFault) -> DescribeFailure
    ensures late { result ≡ DescribeFailure.OutOfMemory → ⊥ }
    ensures output { is_writers result ≡ is_line_writers fault }
{
    match fault {
        LineFault::OutOfMemory => DescribeFailure::LineOutOfMemory,
        LineFault::Output => DescribeFailure::Output,
    }
}

/// Writes the description. Returns whether no cell is unplaced and no cell breaks a rule.
fn write_description<W: Sink>(
    alloc: Global,
    design: &DescribedDesign<'_>,
    writer: &mut W,
) -> Result<bool, DescribeFailure>
    ensures text { OnOk result (Appends (W.contents writer.old) (W.contents writer.new) (parts_text design.now)) }
    ensures clean { (report : Report) → Counts design.now report
        → IfOk result (λ clean. IsTrue clean ↔ IsClean report) }
    ensures cut { OnErr result
        (AppendsFront (W.contents writer.old) (W.contents writer.new) (parts_text design.now)) }
    ensures late { IfErr result (λ fault. fault ≡ DescribeFailure.OutOfMemory → ⊥) }
    ensures failed { W.has_failed writer.new ≡ (is_output result || W.has_failed writer.old) }
    ensures held { W.holds writer.new ≡ W.holds writer.old }
{
    match put_parts(alloc, design, writer) {
        Ok(()) => Ok(is_clean(&counts_in(design))),
        Err(fault) => Err(line_failure(fault)),
    }
}

/// Writes the lines of a frame and its cells. `names` are the names of the FIXED components.
/// Returns whether no cell is unplaced and no cell breaks a rule.
fn describe_cells<W: Sink>(
    alloc: Global,
    frame: &Frame,
    names: &[&[u8]],
    cells: &[Listed<&[u8]>],
    writer: &mut W,
) -> Result<bool, DescribeFailure>
    requires listed { All (λ c. IsListed frame.now (with_byte_name c)) cells.now }
    requires few { length cells.now ≤ 4000000 }
    ensures text { (l : Legalizer) → OnOk result (AppendsLines l frame.now (map (λ n. n.now) names.now)
        (map with_byte_name cells.now) (W.contents writer.old) (W.contents writer.new)) }
    ensures clean { (l : Legalizer)
        → IfOk result (λ clean. IsTrue clean ↔ IsClean (report_of l frame.now 0 (map with_byte_name cells.now))) }
    ensures cut { (l : Legalizer) → OnErr result (AppendsFirst l frame.now (map (λ n. n.now) names.now)
        (map with_byte_name cells.now) (W.contents writer.old) (W.contents writer.new)) }
    ensures unwritten { IfErr result (λ fault. fault ≡ DescribeFailure.OutOfMemory → writer.new ≡ writer.old) }
    ensures failed { W.has_failed writer.new ≡ (is_output result || W.has_failed writer.old) }
    ensures held { W.holds writer.new ≡ W.holds writer.old }
{
    let Ok(index) = FrameIndex::build(alloc, frame) else {
        return Err(DescribeFailure::OutOfMemory);
    };
    let Ok(verdicts) = verdicts_of(alloc, frame, &index, cells) else {
        return Err(DescribeFailure::OutOfMemory);
    };
    let Ok(density) = density_in(alloc, frame, &index, cells) else {
        return Err(DescribeFailure::OutOfMemory);
    };
    let design = DescribedDesign {
        frame,
        names,
        cells,
        verdicts: verdicts.as_slice(),
        density,
    };
    write_description(alloc, &design, writer)
}

/// Writes the description of a design as JSON Lines, one object on each line, with each cell at its
/// place in the DEF text. The design comes first, then its rows, fences, obstacles, soft blockages
/// and movable cells, then its density, and finally the totals. The text is appended to what the
/// writer holds, and flushed. Returns whether the design is fully legal at these places.
///
/// `document` is the document from which the design was loaded. It names the FIXED components,
/// whose boxes are the first obstacles. The obstacle of a number therefore has the name of the
/// FIXED component of that number, if there is one. A name whose bytes are not UTF-8 is written as
/// null.
///
/// `Err` if an allocation or the writer fails; then a front of the description may be written.
/// Nothing is written if an allocation fails before the first line.
pub fn describe<W: Sink>(
    alloc: Global,
    loaded: &Loaded,
    document: &DefDoc<'_>,
    writer: &mut W,
) -> Result<bool, DescribeFailure>
    ensures text { (l : Legalizer) → OnOk result (AppendsDescription l loaded.now (contents document.now)
        (W.contents writer.old) (W.contents writer.new)) }
    ensures legal { IfOk result (λ legal. IsTrue legal
        ↔ IsFullyLegal loaded.now.frame (design_cells_at loaded.now.cells (places_in_text loaded.now.cells))) }
    ensures cut { (l : Legalizer) → OnErr result (AppendsDescriptionFirst l loaded.now (contents document.now)
        (W.contents writer.old) (W.contents writer.new)) }
    ensures unwritten { IfErr result (λ fault. fault ≡ DescribeFailure.OutOfMemory → writer.new ≡ writer.old) }
    ensures failed { W.has_failed writer.new ≡ (is_output result || W.has_failed writer.old) }
    ensures held { W.holds writer.new ≡ W.holds writer.old }
{
    cell_is_sized();
    legalizer_exists();
    let Ok(names) = fixed_names(alloc, document.components.as_slice()) else {
        return Err(DescribeFailure::OutOfMemory);
    };
    let Ok(cells) = listed(alloc, &loaded.cells) else {
        return Err(DescribeFailure::OutOfMemory);
    };
    describe_cells(alloc, &loaded.frame, &names, &cells, writer)
}
