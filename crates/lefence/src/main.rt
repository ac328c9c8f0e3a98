//! The program `lefence`: it passes its words and its devices to `lf_app::run_program`, and ends with the status that
//! this returns.
//!
//! What remains here is what depends on the terminal: how often progress is reported, and a note that lines are
//! awaited. If the reader of a report, a description or a help text closes the pipe early, as `head` does, the status
//! is 3 without a message.
//!
//! Modules, in reading order:
//!
//! - `closed_pipe`: standard output whose reader may have gone away
#![tactic(auto)]

mod closed_pipe;

use crate::closed_pipe::{MessageWriter, WatchedWriter};
use lf_app::{
    Environment, FromRead, FsInputFiles, FsOutputFiles, NetListener, ProcessHost, TimedProgress,
    ToWrite, UsageFault, run_program,
};
use std::alloc::AllocError;
use std::cell::Cell;
use std::io;
use std::io::IsTerminal;
use std::process::ExitCode;
use std::time::Duration;

/// What is printed on a terminal when the program waits for lines over the built-in design.
const WAITING: &str =
    "lefence: waiting for lines over the built-in design, for example: open A (end with Ctrl-D; lefence --help lists the subcommands)
";

/// The seconds between progress messages of a repair or an improvement on a terminal.
const PAUSE_ON_A_TERMINAL: u64 = 2;

/// The seconds between progress messages in a file or a pipe.
const PAUSE: u64 = 10;

/// Returns the words of the command line. `Err(Usage)` if a word is no text, `Err(OutOfMemory)` if
/// an allocation fails.
fn words_of(rt: &HostRuntime) -> Result<Vec<String>, UsageFault> {
    let words = match std::env::args(rt) {
        Ok(words) => words,
        Err(error) if error.kind() == io::ErrorKind::OutOfMemory => {
            return Err(UsageFault::OutOfMemory);
        }
        Err(_) => return Err(UsageFault::Usage),
    };
    words
        .collect(rt.alloc())
        .map_err(|_: AllocError| UsageFault::OutOfMemory)
}

/// Returns the word at this position, or an empty one if there is none.
fn word_at(words: &[String], position: usize) -> &str {
    match words.get(position) {
        Some(word) => word.as_str(),
        None => "",
    }
}

/// Whether the words only have something written to standard output: a report, a description, lengths or
/// help. If nobody reads that any more, nothing is lost.
fn only_writes(words: &[String]) -> bool {
    let subcommand = word_at(words, 1);
    let option = word_at(words, words.len().saturating_sub(1));
    let has_few = words.len() <= 3;
    let is_help = option == "--help" || option == "-h" || option == "--version";
    let is_report = subcommand == "check" || subcommand == "describe" || subcommand == "wirelength";
    is_report || has_few && is_help
}

/// Whether the words name the demo.
fn is_demo(words: &[String]) -> bool {
    words.len() <= 1 || words.len() == 2 && word_at(words, 1) == "demo"
}

/// Says on a terminal that the program waits for lines: somebody may have typed its name alone.
fn say_what_is_awaited(rt: &HostRuntime, words: &[String]) {
    if is_demo(words) && rt.stdin().is_terminal() {
        let _ = eprint!(rt; "{WAITING}");
    }
}

/// The time between progress messages.
fn pause(rt: &HostRuntime) -> Duration {
    if rt.stderr().is_terminal() {
        return Duration::from_secs(PAUSE_ON_A_TERMINAL);
    }
    Duration::from_secs(PAUSE)
}

fn main(rt: HostRuntime) -> ExitCode {
    let words = words_of(&rt);
    let is_silent = match &words {
        Ok(words) => {
            say_what_is_awaited(&rt, words);
            only_writes(words)
        }
        Err(_) => false,
    };
    let closed = Cell::new(false);
    let mut reader = rt.reader();
    let mut writer = WatchedWriter {
        writer: io::writer(&rt),
        closed: &closed,
    };
    let mut faults = MessageWriter {
        writer: rt.stderr(),
        closed: &closed,
        is_silent,
    };
    let mut environment = Environment::new(
        FsInputFiles::new(&rt),
        FsOutputFiles::new(&rt),
        NetListener::new(&rt),
        FromRead::new(&mut reader),
        ToWrite::new(&mut writer),
        ToWrite::new(&mut faults),
        TimedProgress::new(rt.alloc(), &rt, pause(&rt), rt.stderr()),
    );
    let host = ProcessHost::new(&rt);
    ExitCode::from(run_program(rt.alloc(), &mut environment, &host, &words))
}
