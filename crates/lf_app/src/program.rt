//! The program: what it does for the words of its command line.

ghost use Rattle.std.specs.Prelude.{◌≡◌, false, map, IfOk, string_bytes, None, Ok};
ghost use Rattle.lf_cli.specs.Command.{as_job, job_of};
ghost use Rattle.lf_cli.specs.declared.parse.UsageFault.TheVariants.{Usage};
ghost use Rattle.lf_task_serve.specs.Surroundings.{IsReady};
ghost use Rattle.lf_app.specs.Program.{IsHelpRun, IsJobRun, IsMemoryRun, IsProgramRun, IsUsageRun, ShowsNoProgress, job_read, run_of, words_read};
ghost use Rattle.lf_app.specs.Requests.{requests_of};

use crate::tasks::perform_over;
use lf_cli::{Help, Task, UsageFault, command_of, help_of};
use lf_hub_host::HubHost;
use lf_task_faults::{Fault, report_fault};
use lf_task_serve::{Devices, Environment, Shows};
use lf_task_usage::{write_help, write_usage};
use std::alloc::{AllocError, Global};

/// Does the task, and returns the exit status.
fn run_task<D: Devices, H: HubHost>(
    alloc: Global,
    environment: &mut Environment<D>,
    host: &H,
    task: &Task<'_>,
) -> u8
    requires ready { IsReady D.Reader.has_failed D.Reader.reads D.Writer.has_failed
        environment.old.reader environment.old.writer }
    ensures run { let io = ⟦<Environment<D> as Shows>⟧.io in
        IsJobRun (D.Texts.gives environment.old.texts) (as_job task.now)
        (run_of (io environment.old) (io environment.new) (D.Faults.contents environment.old.faults)
        (D.Faults.contents environment.new.faults) (D.Faults.has_failed environment.new.faults) result) }
    ensures silent { (requests_of (as_job task.now)).shows_progress ≡ false
        → environment.new.progress ≡ environment.old.progress }
    ensures texts { environment.new.texts ≡ environment.old.texts }
{
    let exit = perform_over(alloc, environment, host, task);
    exit.status
}

/// Prints the help, and returns the exit status: 3 if it cannot be written.
fn show_help<D: Devices>(environment: &mut Environment<D>, help: Help) -> u8
    ensures run { let io = ⟦<Environment<D> as Shows>⟧.io in
        IsHelpRun help
        (run_of (io environment.old) (io environment.new) (D.Faults.contents environment.old.faults)
        (D.Faults.contents environment.new.faults) (D.Faults.has_failed environment.new.faults) result) }
    ensures silent { environment.new.progress ≡ environment.old.progress }
    ensures texts { environment.new.texts ≡ environment.old.texts }
{
    match write_help(&mut environment.writer, help) {
        Ok(()) => 0,
        Err(_) => {
            let exit = report_fault(&mut environment.faults, &Fault::Output);
            exit.status
        }
    }
}

/// Reports words that mean nothing, and returns the exit status. A failure to report them is no further
/// fault.
fn refuse_words<D: Devices>(alloc: Global, environment: &mut Environment<D>, words: &[&str]) -> u8
    ensures run { let io = ⟦<Environment<D> as Shows>⟧.io in
        IsUsageRun (map (λ word. word.now) words.now)
        (run_of (io environment.old) (io environment.new) (D.Faults.contents environment.old.faults)
        (D.Faults.contents environment.new.faults) (D.Faults.has_failed environment.new.faults) result) }
    ensures silent { environment.new.progress ≡ environment.old.progress }
    ensures texts { environment.new.texts ≡ environment.old.texts }
{
    let _ = write_usage(alloc, &mut environment.faults, words);
    2
}

/// Reports that memory does not suffice for the words, and returns the exit status.
fn refuse_for_memory<D: Devices>(environment: &mut Environment<D>) -> u8
    ensures run { let io = ⟦<Environment<D> as Shows>⟧.io in
        IsMemoryRun
        (run_of (io environment.old) (io environment.new) (D.Faults.contents environment.old.faults)
        (D.Faults.contents environment.new.faults) (D.Faults.has_failed environment.new.faults) result) }
    ensures silent { environment.new.progress ≡ environment.old.progress }
    ensures texts { environment.new.texts ≡ environment.old.texts }
{
    let exit = report_fault(&mut environment.faults, &Fault::SetupOutOfMemory);
    exit.status
}

/// Does what words that name no task request, and returns the exit status. `fault` is why they name none.
fn answer_words<D: Devices>(
    alloc: Global,
    environment: &mut Environment<D>,
    words: &[&str],
    fault: UsageFault,
) -> u8
    requires no_job { fault ≡ Usage → job_of (map (λ word. word.now) words.now) ≡ None }
    ensures run { let io = ⟦<Environment<D> as Shows>⟧.io in
        IsProgramRun (D.Texts.gives environment.old.texts) (Ok (map (λ word. word.now) words.now))
        (run_of (io environment.old) (io environment.new) (D.Faults.contents environment.old.faults)
        (D.Faults.contents environment.new.faults) (D.Faults.has_failed environment.new.faults) result) }
    ensures silent { environment.new.progress ≡ environment.old.progress }
    ensures texts { environment.new.texts ≡ environment.old.texts }
{
    match fault {
        UsageFault::Usage => match help_of(words) {
            Some(help) => show_help(environment, help),
            None => refuse_words(alloc, environment, words),
        },
        UsageFault::OutOfMemory => refuse_for_memory(environment),
    }
}

/// Does what the words request, and returns the exit status.
fn run_words<D: Devices, H: HubHost>(
    alloc: Global,
    environment: &mut Environment<D>,
    host: &H,
    words: &[&str],
) -> u8
    requires ready { IsReady D.Reader.has_failed D.Reader.reads D.Writer.has_failed
        environment.old.reader environment.old.writer }
    ensures run { let io = ⟦<Environment<D> as Shows>⟧.io in
        IsProgramRun (D.Texts.gives environment.old.texts) (Ok (map (λ word. word.now) words.now))
        (run_of (io environment.old) (io environment.new) (D.Faults.contents environment.old.faults)
        (D.Faults.contents environment.new.faults) (D.Faults.has_failed environment.new.faults) result) }
    ensures silent { ShowsNoProgress (job_of (map (λ word. word.now) words.now))
        → environment.new.progress ≡ environment.old.progress }
    ensures texts { environment.new.texts ≡ environment.old.texts }
{
    match command_of(alloc, words) {
        Ok(task) => run_task(alloc, environment, host, &task),
        Err(fault) => answer_words(alloc, environment, words, fault),
    }
}

/// Borrows the words.
#[tactic(auto, using(crate::proofs::Running::borrowed_more))]
fn borrowed(alloc: Global, words: &[String]) -> Result<Vec<&str>, AllocError>
    ensures { IfOk result (λ texts. map (λ text. text.now) texts.items ≡ map string_bytes words.now) }
{
    let mut texts = Vec::new(alloc);
    for word in words {
        texts.push(word.as_str())?;
    }
    Ok(texts)
}

/// Runs the program on the words of its command line, of which the first is its name, and returns the exit status:
///
/// - that of the task which the words name (`perform_over`)
/// - 0 if the words request help or the version, and 3 if it cannot be written to the writer
/// - 2 if they mean nothing, or are not read since one of them is no text
/// - 1 if an allocation for the words fails
///
/// Faults are reported on `faults`, also those of the words: then with the lines of the argument parser's message, and
/// how to get help. Without a task nothing is read, and no file is written.
pub fn run_program<D: Devices, H: HubHost>(
    alloc: Global,
    environment: &mut Environment<D>,
    host: &H,
    words: &Result<Vec<String>, UsageFault>,
) -> u8
    requires readable { D.Reader.has_failed environment.old.reader ≡ false }
    requires fresh { D.Reader.reads environment.old.reader ≡ 0 }
    requires writable { D.Writer.has_failed environment.old.writer ≡ false }
    ensures run { let io = ⟦<Environment<D> as Shows>⟧.io in
        IsProgramRun (D.Texts.gives environment.old.texts) (words_read words.now)
        (run_of (io environment.old) (io environment.new) (D.Faults.contents environment.old.faults)
        (D.Faults.contents environment.new.faults) (D.Faults.has_failed environment.new.faults) result) }
    ensures silent { ShowsNoProgress (job_read (words_read words.now))
        → environment.new.progress ≡ environment.old.progress }
    ensures texts { environment.new.texts ≡ environment.old.texts }
{
    match words {
        Ok(words) => match borrowed(alloc, words.as_slice()) {
            Ok(texts) => run_words(alloc, environment, host, texts.as_slice()),
            Err(_) => refuse_for_memory(environment),
        },
        Err(UsageFault::Usage) => refuse_words(alloc, environment, &[]),
        Err(UsageFault::OutOfMemory) => refuse_for_memory(environment),
    }
}
