//! The lines of a source, answered within a limit.

ghost use Rattle.std.specs.Prelude.{◌≡◌, ◌≢◌, false, true};
ghost use Rattle.lf_rules.specs.Legalizer.{Legalizer};
ghost use Rattle.lf_task_serve.specs.Faults.{ending_fault};
ghost use Rattle.lf_task_serve.specs.Lines.{IsServed, ReadsFail, reads_for};

use lf_floor::Floor;
use lf_io::{Sink, Source};
use lf_legalize::Seeker;
use lf_server::{Ending, ServeLimits, serve};
use lf_task_faults::Fault;
use std::alloc::Global;

/// The most lines answered on a connection, and from a reader if no other limit is given.
pub(crate) const MOST_LINES: u32 = 1_000_000;

/// The most reads for each line: some more than the longest line has bytes.
const READS: u64 = 4_200;

/// Returns the limits for a reader or a connection on which at most `lines` lines are answered.
pub(crate) fn limits_of(lines: u32) -> ServeLimits
    ensures lines { result.lines ≡ lines }
    ensures reads { result.reads ≡ reads_for lines }
{
    ServeLimits {
        lines: u64::from(lines),
        reads: u64::from(lines) * READS,
    }
}

/// Answers the lines of the source on the floor, one reply to each, as `serve` does, and returns
/// how that ended. At most `lines` lines are answered.
pub fn serve_lines_within<S: Seeker + Drop, I: Source, O: Sink>(
    alloc: Global,
    floor: &mut Floor<S>,
    source: &mut I,
    sink: &mut O,
    lines: u32,
) -> Ending
    requires readable { I.has_failed source.old ≡ false }
    requires writable { O.has_failed sink.old ≡ false }
    requires fresh { I.reads source.old ≡ 0 }
    ensures served { (l : Legalizer)
        → IsServed l lines floor.old floor.new (I.remaining source.old) (I.remaining source.new)
        (O.contents sink.old) (O.contents sink.new) result }
    ensures components { floor.new.components ≡ floor.old.components }
    ensures reading { result ≡ Ending.ReadFault
        → ReadsFail lines (I.has_failed source.new) (I.reads source.old) (I.reads source.new) }
    ensures readable { result ≢ Ending.ReadFault → I.has_failed source.new ≡ false }
    ensures writing { result ≡ Ending.WriteFault → O.has_failed sink.new ≡ true }
    ensures writable { result ≢ Ending.WriteFault → O.has_failed sink.new ≡ false }
    ensures source_held { I.holds source.new ≡ I.holds source.old }
    ensures sink_held { O.holds sink.new ≡ O.holds sink.old }
{
    let served = serve(alloc, floor, source, sink, limits_of(lines));
    served.ending
}

/// Returns the fault of lines that ended neither with the input nor with a bye, or `None` if they
/// did.
pub(crate) fn ending_fault<'a>(ending: Ending) -> Option<Fault<'a>>
    ensures { result ≡ ending_fault ending }
{
    match ending {
        Ending::Done => None,
        Ending::Bye => None,
        Ending::ReadFault => Some(Fault::ReadFault),
        Ending::WriteFault => Some(Fault::WriteFault),
        Ending::TooManyLines => Some(Fault::TooManyLines),
        Ending::OutOfMemory => Some(Fault::OutOfMemory),
    }
}
