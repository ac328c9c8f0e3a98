//! Reports how far a task is.

ghost use Rattle.lf_task_run.specs.Commands.{kept_text};

use crate::command_log::CommandLog;
use lf_io::{DeviceFault, Sink};
use std::alloc::Global;
use std::io::Write;
use std::rt::Clock;
use std::str;
use std::time::{Duration, Instant};

/// A receiver of progress reports. Contracts say nothing about them: whatever the receiver is, the
/// same holds for a task.
pub trait Progress {
    /// Reports that work on the team with this name begins. It is team `number`, counted from 1, of
    /// `teams`. `work` names the work, as `repairing`.
    fn begin(&mut self, work: &'static str, team: &[u8], number: usize, teams: usize);

    /// Reports that one more command was accepted.
    fn step(&mut self);

    /// Reports that the text with the working places was written to this path, and that some of
    /// them are not committed.
    fn uncommitted_in(&mut self, path: &str);

    /// Reports that the text with the committed places was written to this path, and that some
    /// cells have other working places.
    fn uncommitted_outside(&mut self, path: &str);
}

/// Reports nothing.
#[derive(Clone, Copy, Debug)]
pub struct NoProgress;

impl Progress for NoProgress {
    fn begin(&mut self, _work: &'static str, _team: &[u8], _number: usize, _teams: usize) {}

    fn step(&mut self) {}

    fn uncommitted_in(&mut self, _path: &str) {}

    fn uncommitted_outside(&mut self, _path: &str) {}
}

/// The clock is read once in this number of commands.
const COMMANDS: u64 = 1_024;

/// Writes a progress line whenever `pause` has passed since the last one, or since `new` for the
/// first. If the clock cannot be read or the writer fails, it writes no more lines. That is not a
/// fault.
#[derive(Drop)]
pub struct TimedProgress<'a, T, W> {
    clock: &'a T,
    writer: W,
    pause: Duration,
    /// The time of the last line, or of `new` if there is no line yet. `None` if no more lines are
    /// written.
    since: Option<Instant>,
    /// The name of the work.
    work: &'static str,
    /// The name of the team.
    team: Vec<u8>,
    number: usize,
    teams: usize,
    /// The number of accepted commands of all teams so far.
    commands: u64,
}

impl<'a, T: Clock, W: Write> TimedProgress<'a, T, W> {
    /// A receiver that has written no line yet. The time between two lines is `pause`.
    pub fn new(alloc: Global, clock: &'a T, pause: Duration, writer: W) -> Self {
        TimedProgress {
            clock,
            writer,
            pause,
            since: Instant::now(clock).ok(),
            work: "",
            team: Vec::new(alloc),
            number: 0,
            teams: 0,
            commands: 0,
        }
    }

    /// Writes a line, if it is time for one.
    fn report_in_time(&mut self) {
        let Some(since) = self.since else {
            return;
        };
        self.since = match Instant::now(self.clock) {
            Ok(now) if now.duration_since(since) < self.pause => Some(since),
            Ok(now) if self.report_it() => Some(now),
            _ => None,
        };
    }

    /// Writes a line. Returns false if that fails.
    fn report_it(&mut self) -> bool {
        let team = str::from_utf8(&self.team).unwrap_or("?");
        let (work, number, teams, commands) = (self.work, self.number, self.teams, self.commands);
        writeln!(
            self.writer,
            "lefence: {work} {team:?}, team {number} of {teams}: {commands} commands so far"
        )
        .is_ok()
    }
}

impl<'a, T: Clock, W: Write> Progress for TimedProgress<'a, T, W> {
    fn begin(&mut self, work: &'static str, team: &[u8], number: usize, teams: usize) {
        self.work = work;
        self.team.clear();
        // (if there is no memory for the name, the line has no name)
        let _ = self.team.extend_from_slice(team);
        self.number = number;
        self.teams = teams;
        self.report_in_time();
    }

    fn step(&mut self) {
        self.commands = self.commands.saturating_add(1);
        if self.commands % COMMANDS == 0 {
            self.report_in_time();
        }
    }

    // (if the line cannot be written, that is no fault)
    fn uncommitted_in(&mut self, path: &str) {
        let _ = writeln!(
            self.writer,
            "lefence: {path} has working places that are not committed"
        );
    }

    fn uncommitted_outside(&mut self, path: &str) {
        let _ = writeln!(
            self.writer,
            "lefence: {path} has the committed places alone: --export-working FILE writes the others"
        );
    }
}

/// Command lines that are kept. Each is also reported to `progress`.
#[derive(Drop)]
pub struct ProgressSink<'p, P> {
    pub lines: CommandLog,
    pub progress: &'p mut P,
}

impl<'p, P: Progress> Sink for ProgressSink<'p, P> {
    ghost contents = { λ s. kept_text s.lines };

    ghost is_flushed = { λ s. s.lines.flushed };

    ghost has_failed = { λ s. s.lines.failed };

    // (each command's line is written by one call)
    fn write(&mut self, bytes: &[u8]) -> Result<usize, DeviceFault> {
        self.progress.step();
        self.lines.write(bytes)
    }

    fn flush(&mut self) -> Result<(), DeviceFault> {
        self.lines.flush()
    }
}
