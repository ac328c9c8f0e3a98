//! The program, from the words of its command line to its exit status.

use crate::tasks::Failing;
use lf_app::{
    Environment, FromRead, FsInputFiles, FsOutputFiles, NetListener, NoHub, NoProgress, ToWrite,
    UsageFault, run_program,
};
use std::alloc::{AllocError, Global};
use std::io::Write;
use std::test::Fail;

/// The words of a command line, or why they are not read.
type Words = Result<Vec<String>, UsageFault>;

/// Returns the words of a line.
fn words_of(alloc: Global, line: &str) -> Result<Words, AllocError> {
    let mut words = Vec::new(alloc);
    for word in line.split_whitespace() {
        words.push(String::from_str(alloc, word)?)?;
    }
    Ok(Ok(words))
}

/// Runs the program on these words, with an input that opens a session, and returns the exit status.
fn run_over<W: Write>(rt: &HostRuntime, words: &Words, writer: &mut W, faults: &mut Vec<u8>) -> u8 {
    let mut reader = b"open A\n".as_slice();
    let mut environment = Environment::new(
        FsInputFiles::new(rt),
        FsOutputFiles::new(rt),
        NetListener::new(rt),
        FromRead::new(&mut reader),
        ToWrite::new(writer),
        ToWrite::new(faults),
        NoProgress,
    );
    run_program(rt.alloc(), &mut environment, &NoHub, words)
}

/// Returns whether the run on these words has this status, output and messages.
fn runs(rt: &HostRuntime, words: &Words, status: u8, written: &str, said: &str) -> bool {
    let mut output = Vec::new(rt.alloc());
    let mut faults = Vec::new(rt.alloc());
    run_over(rt, words, &mut output, &mut faults) == status
        && output.as_slice() == written.as_bytes()
        && faults.as_slice() == said.as_bytes()
}

#[test]
fn words_request_what_the_program_does(rt: HostRuntime) -> Result<(), Fail> {
    let demo = words_of(rt.alloc(), "lefence")?;
    assert!(rt; runs(&rt, &demo, 0, "ok 0 0\n", ""));
    let version = words_of(rt.alloc(), "lefence --version")?;
    assert!(rt; runs(&rt, &version, 0, "lefence 0.1.0 for LEF and DEF 5.8\n", ""));
    Ok(())
}

#[test]
fn words_that_mean_nothing_are_reported(rt: HostRuntime) -> Result<(), Fail> {
    let wrong = words_of(rt.alloc(), "lefence demo --save")?;
    let said = "lefence: usage\nlefence: unexpected argument '--save' found\n\
        lefence: tip: '--save' is an option of: replay, serve, repair\n  \
        lefence --help                all subcommands and their options\n  \
        lefence demo --help   what it does, with an example\n";
    assert!(rt; runs(&rt, &wrong, 2, "", said));
    let said =
        "lefence: usage\n  lefence --help                all subcommands and their options\n  \
        lefence demo --help           what a subcommand does, with an example (so for each of them)\n";
    assert!(rt; runs(&rt, &Err(UsageFault::Usage), 2, "", said));
    assert!(rt;
        runs(
            &rt,
            &Err(UsageFault::OutOfMemory),
            1,
            "",
            "lefence: 24 OutOfMemory\n"
        )
    );
    Ok(())
}

#[test]
fn help_that_cannot_be_written_is_a_fault(rt: HostRuntime) -> Result<(), Fail> {
    let help = words_of(rt.alloc(), "lefence check --help")?;
    let mut faults = Vec::new(rt.alloc());
    assert!(rt; run_over(&rt, &help, &mut Failing, &mut faults) == 3);
    assert!(rt; faults.as_slice() == b"lefence: Output\n".as_slice());
    Ok(())
}
