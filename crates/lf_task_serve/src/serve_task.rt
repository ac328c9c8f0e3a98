//! Work on a design: its lines are answered or its connections served. Then the requested files are
//! written: the text with the committed places, and the state of the floor.

ghost use Rattle.std.specs.Prelude.{◌≡◌, ℕ, List, None, Option, IfErr, IfOk, map, option_copied};
ghost use Rattle.lf_def.specs.Document.{Document};
ghost use Rattle.lf_floorplan.specs.declared.place.Place.{Place};
ghost use Rattle.lf_floor_model.specs.Designs.{initial_floor};
ghost use Rattle.lf_floor_model.specs.Places.{AreCommittedPlaces};
ghost use Rattle.lf_floor_model.specs.States.{FloorState};
ghost use Rattle.lf_task_designs.specs.Designs.{AreKept};
ghost use Rattle.lf_task_files.specs.Exits.{CanBePut};
ghost use Rattle.lf_task_files.specs.Inputs.{path_of};
ghost use Rattle.lf_task_journal.specs.Begun.{IsBegunFloor};
ghost use Rattle.lf_task_serve.specs.Exits.{AnswersInput, IsFinished, IsLinesFault, IsUndone, IsServedDesign};
ghost use Rattle.lf_task_serve.specs.Faults.{BlamesStreams};
ghost use Rattle.lf_task_serve.specs.Lines.{default_most_lines};
ghost use Rattle.lf_task_serve.specs.Surroundings.{IsReady, KeepsStreams, streams_of};
ghost use Rattle.lf_task_serve.specs.Work.{AreAnswered, BlamesIn, IsServingFault, IsOfOriginal, IsUnfinished, IsNotServedDesign, LeavesDevices};

use crate::environment::{Devices, Environment, Shows};
use crate::line_source::{LineSource, serve_reader, serve_source};
use crate::serve_lines::MOST_LINES;
use lf_floor::Floor;
use lf_floor_model::places_follow_design;
use lf_frame::Loaded;
use lf_io::{Sink, Source};
use lf_laws_roundtrip::loaded_cells_are_exportable;
use lf_legalize::IndexSeeker;
use lf_task_designs::{OpenedDesign, SourceText, open_design};
use lf_task_faults::Fault;
use lf_task_files::{DesignInput, OutputPaths, check_outputs, start_floor, write_outputs};
use lf_task_journal::begin_floor;
use lf_write::kept_clauses_suffice;
use std::alloc::Global;

/// Works on a floor of the design: answers its lines, and then writes the requested files. No line
/// is read if the files cannot be written, as far as this can be known in advance. `original` is
/// the DEF text, which is needed to export.
fn serve_floor<'a, D: Devices>(
    alloc: Global,
    environment: &mut Environment<D>,
    original: Option<&SourceText>,
    floor: &mut Floor<IndexSeeker>,
    lines: LineSource,
    outputs: OutputPaths<'a>,
) -> Result<u8, Fault<'a>>
    requires ready { IsReady D.Reader.has_failed D.Reader.reads D.Writer.has_failed
        environment.old.reader environment.old.writer }
    requires kept { original ≡ None → path_of outputs.export ≡ None }
    requires fits { (s : FloorState) (places : List (ℕ × Option Place)) → s.components ≡ floor.old.components
        → AreCommittedPlaces s places
        → CanBePut (option_copied original) places }
    ensures ok { let io = ⟦<Environment<D> as Shows>⟧.io in
        (text : List ℕ) (document : Document) → AreKept (option_copied original.entry) text document
        → IfOk result (λ status. (status ≡ 0)
        × IsFinished (AreAnswered lines floor.old) (path_of outputs.entry.save) (path_of outputs.entry.export)
        text document (streams_of (io environment.old) (io environment.new))) }
    ensures err { let io = ⟦<Environment<D> as Shows>⟧.io in
        (text : List ℕ) (document : Document) → AreKept (option_copied original.entry) text document
        → IfErr result
        (λ fault. IsUnfinished (path_of outputs.entry.save) (path_of outputs.entry.export) lines floor.old
        text document fault (streams_of (io environment.old) (io environment.new))
        × BlamesIn lines (environment.new.writer ≡ environment.old.writer) (io environment.old) (io environment.new) fault) }
    ensures leaves { let io = ⟦<Environment<D> as Shows>⟧.io in
        LeavesDevices lines (path_of outputs.entry.save) (path_of outputs.entry.export) result
        environment.old.exports environment.new.exports environment.old.reader environment.new.reader (io environment.old) (io environment.new) }
    ensures silent { environment.new.progress ≡ environment.old.progress }
    ensures texts { environment.new.texts ≡ environment.old.texts }
    ensures unreported { environment.new.faults ≡ environment.old.faults }
    ensures keeps { let io = ⟦<Environment<D> as Shows>⟧.io in KeepsStreams (io environment.old) (io environment.new) }
{
    check_outputs(outputs, &mut environment.exports)?;
    serve_source(alloc, environment, floor, lines)?;
    write_outputs(floor, original, outputs, &mut environment.exports)?;
    Ok(0)
}

/// Works on the design of these files, in the state of its file and after the journal of this path, each
/// if one is given.
fn serve_design<'a, D: Devices>(
    alloc: Global,
    environment: &mut Environment<D>,
    design: OpenedDesign,
    inputs: DesignInput<'a>,
    journal: Option<&'a str>,
    lines: LineSource,
    outputs: OutputPaths<'a>,
) -> Result<u8, Fault<'a>>
    requires ready { IsReady D.Reader.has_failed D.Reader.reads D.Writer.has_failed
        environment.old.reader environment.old.writer }
    requires kept { design.original ≡ None → path_of outputs.export ≡ None }
    requires loads { IsOfOriginal design.original design.loaded }
    ensures ok { let io = ⟦<Environment<D> as Shows>⟧.io in
        (text : List ℕ) (document : Document) → AreKept design.original text document
        → IfOk result (λ status. (status ≡ 0) × ((begin : FloorState)
        × IsBegunFloor inputs.entry.limits (D.Texts.gives environment.old.texts) inputs.entry.def.now
        (map (λ lef. lef.now) inputs.entry.lefs.now) (path_of inputs.entry.state) (path_of journal.entry) design.loaded
        begin
        × IsFinished (AreAnswered lines begin) (path_of outputs.entry.save) (path_of outputs.entry.export)
        text document (streams_of (io environment.old) (io environment.new)))) }
    ensures err { let io = ⟦<Environment<D> as Shows>⟧.io in
        (text : List ℕ) (document : Document) → AreKept design.original text document
        → IfErr result (λ fault. IsNotServedDesign inputs.entry.limits (D.Texts.gives environment.old.texts)
        inputs.entry.def.now (map (λ lef. lef.now) inputs.entry.lefs.now) (path_of inputs.entry.state)
        (path_of journal.entry) (path_of outputs.entry.save) (path_of outputs.entry.export) lines
        design.loaded text document fault (streams_of (io environment.old) (io environment.new))
        × BlamesIn lines (environment.new.writer ≡ environment.old.writer) (io environment.old) (io environment.new) fault) }
    ensures leaves { let io = ⟦<Environment<D> as Shows>⟧.io in
        LeavesDevices lines (path_of outputs.entry.save) (path_of outputs.entry.export) result
        environment.old.exports environment.new.exports environment.old.reader environment.new.reader (io environment.old) (io environment.new) }
    ensures silent { environment.new.progress ≡ environment.old.progress }
    ensures texts { environment.new.texts ≡ environment.old.texts }
    ensures unreported { environment.new.faults ≡ environment.old.faults }
    ensures keeps { let io = ⟦<Environment<D> as Shows>⟧.io in KeepsStreams (io environment.old) (io environment.new) }
{
    kept_clauses_suffice();
    loaded_cells_are_exportable();
    places_follow_design();
    let OpenedDesign { loaded, original } = design;
    let mut floor = begin_floor(alloc, &environment.texts, loaded, inputs, journal)?;
    serve_floor(
        alloc,
        environment,
        original.as_ref(),
        &mut floor,
        lines,
        outputs,
    )
}

/// Works on the design of a DEF file over LEF files, in the state of a state file and after a journal,
/// each if one is given. Answers its lines or serves its connections, and then writes the exported text
/// and the state, if requested. Returns the exit status 0.
///
/// `Err` is the first fault, in this order: the LEF files, the DEF file, the design, the state, the
/// journal, the paths of the requested files, the port, the lines, the exported text, the state. If the
/// fault is not that of writing the state, no file is written.
pub fn serve_files<'a, D: Devices>(
    alloc: Global,
    environment: &mut Environment<D>,
    inputs: DesignInput<'a>,
    journal: Option<&'a str>,
    lines: LineSource,
    outputs: OutputPaths<'a>,
) -> Result<u8, Fault<'a>>
    requires ready { IsReady D.Reader.has_failed D.Reader.reads D.Writer.has_failed
        environment.old.reader environment.old.writer }
    ensures ok { let io = ⟦<Environment<D> as Shows>⟧.io in
        IfOk result (λ status. IsServedDesign inputs.entry.limits (D.Texts.gives environment.old.texts)
        inputs.entry.def.now (map (λ lef. lef.now) inputs.entry.lefs.now)
        (path_of inputs.entry.state) (path_of journal.entry) (path_of outputs.entry.save)
        (path_of outputs.entry.export) (AreAnswered lines)
        (streams_of (io environment.old) (io environment.new)) × (status ≡ 0)) }
    ensures err { let io = ⟦<Environment<D> as Shows>⟧.io in
        IfErr result (λ fault. IsUndone inputs.entry.limits (D.Texts.gives environment.old.texts)
        inputs.entry.def.now (map (λ lef. lef.now) inputs.entry.lefs.now)
        (path_of inputs.entry.state) (path_of journal.entry) (path_of outputs.entry.save)
        (path_of outputs.entry.export) (IsServingFault lines)
        (AreAnswered lines) fault
        (streams_of (io environment.old) (io environment.new))
        × BlamesIn lines (environment.new.writer ≡ environment.old.writer) (io environment.old) (io environment.new) fault) }
    ensures leaves { let io = ⟦<Environment<D> as Shows>⟧.io in
        LeavesDevices lines (path_of outputs.entry.save) (path_of outputs.entry.export) result
        environment.old.exports environment.new.exports environment.old.reader environment.new.reader (io environment.old) (io environment.new) }
    ensures silent { environment.new.progress ≡ environment.old.progress }
    ensures texts { environment.new.texts ≡ environment.old.texts }
    ensures unreported { environment.new.faults ≡ environment.old.faults }
    ensures keeps { let io = ⟦<Environment<D> as Shows>⟧.io in KeepsStreams (io environment.old) (io environment.new) }
{
    let DesignInput {
        def,
        lefs,
        limits,
        ..
    } = inputs;
    let is_text_kept = outputs.export.is_some();
    let design = open_design(alloc, limits, &environment.texts, def, lefs, is_text_kept)?;
    serve_design(alloc, environment, design, inputs, journal, lines, outputs)
}

/// Answers the lines of the reader over the design, at most 1,000,000, and exports nothing. Returns
/// the exit status 0. `Err` if an allocation for the floor fails, or the lines end neither with the
/// input nor with a bye.
pub fn serve_loaded<'a, R: Source, W: Sink>(
    alloc: Global,
    loaded: Loaded,
    reader: &mut R,
    writer: &mut W,
) -> Result<u8, Fault<'a>>
    requires ready { IsReady R.has_failed R.reads W.has_failed reader.old writer.old }
    ensures ok { IfOk result (λ status. ((floor : FloorState)
        × AnswersInput default_most_lines (initial_floor loaded) floor (R.remaining reader.old) (R.remaining reader.new)
        (W.contents writer.old) (W.contents writer.new))
        × (status ≡ 0)) }
    ensures err { IfErr result (λ fault. IsLinesFault default_most_lines (initial_floor loaded) fault
        (R.remaining reader.old) (R.remaining reader.new) (W.contents writer.old) (W.contents writer.new)
        × BlamesStreams default_most_lines fault (writer.new ≡ writer.old) (R.has_failed reader.new)
        (R.reads reader.old) (R.reads reader.new)
        (W.has_failed writer.new)) }
    ensures reader_held { R.holds reader.new ≡ R.holds reader.old }
    ensures writer_held { W.holds writer.new ≡ W.holds writer.old }
{
    let mut floor = start_floor(alloc, loaded)?;
    serve_reader(alloc, &mut floor, MOST_LINES, reader, writer)?;
    Ok(0)
}
