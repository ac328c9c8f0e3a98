//! The text of the design with the committed places of a floor, which is the exported text, or with
//! its working places.

ghost use Rattle.std.specs.Prelude.{◌≡◌, ℕ, List, None, Option, IfErr, OnErr, OnOk, option_copied};
ghost use Rattle.lf_def.specs.Document.{Document};
ghost use Rattle.lf_floorplan.specs.declared.place.Place.{Place};
ghost use Rattle.lf_floor.specs.Working.{with_working};
ghost use Rattle.lf_floor_model.specs.Places.{AreCommittedPlaces};
ghost use Rattle.lf_write.specs.Export.{CanBeRenewed, renewed};
ghost use Rattle.lf_task_designs.specs.Designs.{AreKept};
ghost use Rattle.lf_task_files.specs.Exits.{CanBePut, IsExported};
ghost use Rattle.lf_task_files.specs.Faults.{ExportFails, IsOutputFault};
ghost use Rattle.lf_task_files.specs.Inputs.{path_of};

use crate::output_file::put_file;
use lf_floor::{CellPlaces, Floor};
use lf_floorplan::Place;
use lf_io::{OutputFiles, TextSource};
use lf_legalize::IndexSeeker;
use lf_task_designs::SourceText;
use lf_task_faults::{Fault, OutputKind};
use lf_write::{KeptClauses, NewPlaces, kept_clauses_suffice, write_export};
use std::io;
use std::io::Write;
use std::marker::Model;

/// The text with other places, made from the original text while it is written. Places are found one
/// by one.
///
/// Contracts see the original text, its clauses and the places.
#[derive(Drop)]
struct PlacedText<'a> {
    text: &'a [u8],
    clauses: &'a KeptClauses,
    places: CellPlaces<'a>,
}

impl<'a> Model for PlacedText<'a> {
    ghost use Rattle.std.specs.Prelude.{ℕ, List, Option};
    ghost use Rattle.lf_floorplan.specs.declared.place.Place.{Place};
    ghost use Rattle.lf_write.specs.Export.{CanBeRenewed, ClauseFacts};

    ghost Value = { List ℕ × List ClauseFacts × List (ℕ × Option Place) };

    ghost view = { λ e. (e.text.now, e.clauses.now, e.places) };

    ghost invariant = { λ e. CanBeRenewed e.text.now e.clauses.now e.places };
}

impl<'a> NewPlaces for PlacedText<'a> {
    ghost places = { λ e. e.2 };

    fn count(&self) -> usize {
        self.places.len()
    }

    fn place(&self, at: usize) -> Option<(usize, Option<Place>)> {
        self.places.at(at)
    }
}

impl<'a> TextSource for PlacedText<'a> {
    ghost text = { λ e. renewed e.0 e.1 e.2 };

    fn write_to<W: Write>(&self, writer: &mut W) -> io::Result<()> {
        write_export(writer, self.text, self.clauses, self)
    }
}

/// Makes the exported text from the original with these clauses and the committed places of the
/// floor.
fn exported_text<'a>(
    floor: &'a Floor<IndexSeeker>,
    text: &'a [u8],
    clauses: &'a KeptClauses,
) -> PlacedText<'a>
    requires fits { (places : List (ℕ × Option Place)) → AreCommittedPlaces floor.now places
        → CanBeRenewed text.now clauses.now places }
    ensures { (places : List (ℕ × Option Place)) × AreCommittedPlaces floor.now places
        × (result ≡ (text.now, clauses.now, places)) }
{
    PlacedText {
        text,
        clauses,
        places: floor.committed(),
    }
}

/// Makes the text from the original with these clauses and the working places of the floor.
fn working_text<'a>(
    floor: &'a Floor<IndexSeeker>,
    text: &'a [u8],
    clauses: &'a KeptClauses,
) -> PlacedText<'a>
    requires fits { (places : List (ℕ × Option Place)) → AreCommittedPlaces (with_working floor.now) places
        → CanBeRenewed text.now clauses.now places }
    ensures { (places : List (ℕ × Option Place)) × AreCommittedPlaces (with_working floor.now) places
        × (result ≡ (text.now, clauses.now, places)) }
{
    PlacedText {
        text,
        clauses,
        places: floor.working(),
    }
}

/// Writes the exported text to the file of this path, if one is given. `original` is the DEF text.
pub fn save_export<'a, E: OutputFiles>(
    floor: &Floor<IndexSeeker>,
    original: Option<&SourceText>,
    path: Option<&'a str>,
    exports: &mut E,
) -> Result<(), Fault<'a>>
    requires kept { original ≡ None → path_of path ≡ None }
    requires fits { (places : List (ℕ × Option Place)) → AreCommittedPlaces floor.now places
        → CanBePut (option_copied original) places }
    ensures ok { (text : List ℕ) (document : Document) → AreKept (option_copied original.entry) text document
        → OnOk result (IsExported (path_of path.entry) text document floor.now (E.puts exports.old)
        (E.puts exports.new)) }
    ensures err { IfErr result (IsOutputFault OutputKind.Export (path_of path.entry)) }
    ensures fails { IfErr result (λ fault. ExportFails fault (E.has_failed exports.old) (E.has_failed exports.new)) }
    ensures sound { OnOk result (E.has_failed exports.new ≡ E.has_failed exports.old) }
    ensures unput { OnErr result (E.puts exports.new ≡ E.puts exports.old) }
    ensures unasked { path_of path.entry ≡ None → exports.new ≡ exports.old }
{
    kept_clauses_suffice();
    let (Some(original), Some(path)) = (original, path) else {
        return Ok(());
    };
    let exported = exported_text(floor, &original.text, &original.clauses);
    put_file(OutputKind::Export, path, &exported, exports)
}

/// Writes the text with the working places to the file of this path, if one is given. It is the
/// exported text of the floor in which they are committed. `original` is the DEF text.
pub fn save_working<'a, E: OutputFiles>(
    floor: &Floor<IndexSeeker>,
    original: Option<&SourceText>,
    path: Option<&'a str>,
    exports: &mut E,
) -> Result<(), Fault<'a>>
    requires kept { original ≡ None → path_of path ≡ None }
    requires fits { (places : List (ℕ × Option Place)) → AreCommittedPlaces (with_working floor.now) places
        → CanBePut (option_copied original) places }
    ensures ok { (text : List ℕ) (document : Document) → AreKept (option_copied original.entry) text document
        → OnOk result (IsExported (path_of path.entry) text document (with_working floor.now) (E.puts exports.old)
        (E.puts exports.new)) }
    ensures err { IfErr result (IsOutputFault OutputKind.Working (path_of path.entry)) }
    ensures fails { IfErr result (λ fault. ExportFails fault (E.has_failed exports.old) (E.has_failed exports.new)) }
    ensures sound { OnOk result (E.has_failed exports.new ≡ E.has_failed exports.old) }
    ensures unput { OnErr result (E.puts exports.new ≡ E.puts exports.old) }
    ensures unasked { path_of path.entry ≡ None → exports.new ≡ exports.old }
{
    kept_clauses_suffice();
    let (Some(original), Some(path)) = (original, path) else {
        return Ok(());
    };
    let text = working_text(floor, &original.text, &original.clauses);
    put_file(OutputKind::Working, path, &text, exports)
}
