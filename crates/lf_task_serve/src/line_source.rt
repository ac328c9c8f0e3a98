//! The source of a design's lines, the reader or connections to a port, and how the lines are
//! answered.

ghost use Rattle.std.specs.Prelude.{◌≡◌, IfErr, OnOk, false, true};
ghost use Rattle.lf_task_faults.specs.Faults.{BlamesDevices};
ghost use Rattle.lf_task_serve.specs.Exits.{AnswersInput, EndsWithFault, IsOffered, IsServiceFault};
ghost use Rattle.lf_task_serve.specs.Faults.{BlamesStreams};
ghost use Rattle.lf_task_serve.specs.Lines.{default_most_lines, reads_for};
ghost use Rattle.lf_task_serve.specs.Services.{Offers};
ghost use Rattle.lf_task_serve.specs.Surroundings.{IsReady, IsSound, KeepsStreams, streams_of};
ghost use Rattle.lf_task_serve.specs.Work.{AreAnswered, BlamesIn, IsServingFault, LeavesReader, IsOfferFor};

use crate::environment::{Devices, Environment, Shows};
use crate::listener::{PortListener, local_service};
use crate::serve_lines::{ending_fault, serve_lines_within};
use lf_floor::Floor;
use lf_io::{Sink, Source, send};
use lf_legalize::IndexSeeker;
use lf_server::{ServiceConfig, serve_connections};
use lf_task_faults::Fault;
use std::alloc::Global;

/// The source of a design's lines.
#[derive(Clone, Copy, Debug, PartialEq, Eq)]
pub enum LineSource {
    /// The reader, with replies to the writer. At most `max_lines` lines are answered.
    Reader { max_lines: u32 },
    /// Connections to this port, one after the other.
    Port { port: u16, connections: u32 },
}

/// Answers the lines of the reader on the floor, at most `lines` lines. `Err` if they end neither
/// with the input nor with a bye.
pub(crate) fn serve_reader<'a, R: Source, W: Sink>(
    alloc: Global,
    floor: &mut Floor<IndexSeeker>,
    lines: u32,
    reader: &mut R,
    writer: &mut W,
) -> Result<(), Fault<'a>>
    requires ready { IsReady R.has_failed R.reads W.has_failed reader.old writer.old }
    ensures ok { OnOk result (AnswersInput lines floor.old floor.new (R.remaining reader.old) (R.remaining reader.new)
        (W.contents writer.old) (W.contents writer.new)) }
    ensures components { floor.new.components ≡ floor.old.components }
    ensures err { IfErr result (λ fault. EndsWithFault lines floor.old fault
        (R.remaining reader.old) (R.remaining reader.new) (W.contents writer.old) (W.contents writer.new)
        × BlamesStreams lines fault (writer.new ≡ writer.old) (R.has_failed reader.new) (R.reads reader.old)
        (R.reads reader.new) (W.has_failed writer.new)) }
    ensures sound { OnOk result ((R.has_failed reader.new ≡ false) × (W.has_failed writer.new ≡ false)) }
    ensures reader_held { R.holds reader.new ≡ R.holds reader.old }
    ensures writer_held { W.holds writer.new ≡ W.holds writer.old }
{
    match ending_fault(serve_lines_within(alloc, floor, reader, writer, lines)) {
        Some(fault) => Err(fault),
        None => Ok(()),
    }
}

/// Listens on the port of the service, writes `listening`, and serves its connections, one after
/// the other. `Err` if it cannot listen, the line cannot be written, or a connection cannot be
/// accepted.
fn serve_port<'a, V: PortListener, W: Sink>(
    alloc: Global,
    services: &mut V,
    floor: &mut Floor<IndexSeeker>,
    offer: &ServiceConfig,
    writer: &mut W,
) -> Result<(), Fault<'a>>
    requires lines { offer.now.limits.lines ≡ default_most_lines }
    requires reads { offer.now.limits.reads ≡ reads_for default_most_lines }
    ensures ok { OnOk result
        (IsOffered floor.old floor.new offer.now.connections (W.contents writer.old) (W.contents writer.new)
        (V.accepted services.old) (V.accepted services.new)) }
    ensures components { floor.new.components ≡ floor.old.components }
    ensures err { IfErr result (λ fault.
        IsServiceFault offer.now.port offer.now.connections floor.old fault (W.contents writer.old)
        (W.contents writer.new)
        (V.accepted services.old) (V.accepted services.new)
        × BlamesDevices fault (writer.new ≡ writer.old) ⊥ (W.has_failed writer.new ≡ true) ⊥
        (V.has_failed services.new ≡ true) ⊥) }
    ensures sound { OnOk result ((W.has_failed writer.new ≡ W.has_failed writer.old)
        × (V.has_failed services.new ≡ V.has_failed services.old)) }
    ensures offered { Offers (V.offers services.old) (V.offers services.new) offer.now }
    ensures writer_held { W.holds writer.new ≡ W.holds writer.old }
{
    if let Err(why) = services.listen(offer) {
        return Err(Fault::Bind(offer.port, why));
    }
    if send(writer, b"listening\n").is_err() {
        return Err(Fault::Output);
    }
    let served = serve_connections(alloc, floor, services, offer.connections, offer.limits);
    if served.accept_fault {
        return Err(Fault::Accept);
    }
    Ok(())
}

/// Answers the lines of the source on the floor.
pub(crate) fn serve_source<'a, D: Devices>(
    alloc: Global,
    environment: &mut Environment<D>,
    floor: &mut Floor<IndexSeeker>,
    lines: LineSource,
) -> Result<(), Fault<'a>>
    requires ready { IsReady D.Reader.has_failed D.Reader.reads D.Writer.has_failed
        environment.old.reader environment.old.writer }
    ensures ok { let io = ⟦<Environment<D> as Shows>⟧.io in
        OnOk result
        (AreAnswered lines floor.old floor.new (streams_of (io environment.old) (io environment.new))) }
    ensures components { floor.new.components ≡ floor.old.components }
    ensures err { let io = ⟦<Environment<D> as Shows>⟧.io in
        IfErr result (λ fault.
        IsServingFault lines floor.old fault (streams_of (io environment.old) (io environment.new))
        × BlamesIn lines (environment.new.writer ≡ environment.old.writer) (io environment.old) (io environment.new) fault) }
    ensures sound { let io = ⟦<Environment<D> as Shows>⟧.io in
        OnOk result (IsSound (io environment.old) (io environment.new)) }
    ensures exports { environment.new.exports ≡ environment.old.exports }
    ensures offered { let io = ⟦<Environment<D> as Shows>⟧.io in
        IsOfferFor lines (io environment.old).offers (io environment.new).offers }
    ensures unread { LeavesReader lines environment.old.reader environment.new.reader }
    ensures silent { environment.new.progress ≡ environment.old.progress }
    ensures texts { environment.new.texts ≡ environment.old.texts }
    ensures unreported { environment.new.faults ≡ environment.old.faults }
    ensures keeps { let io = ⟦<Environment<D> as Shows>⟧.io in KeepsStreams (io environment.old) (io environment.new) }
{
    let reader = &mut environment.reader;
    let writer = &mut environment.writer;
    match lines {
        LineSource::Reader { max_lines } => serve_reader(alloc, floor, max_lines, reader, writer),
        LineSource::Port { port, connections } => {
            let local = local_service(port, connections);
            serve_port(alloc, &mut environment.services, floor, &local, writer)
        }
    }
}
