//! The program's own output for a row: the report of `lefence check`, and the replies and the
//! exported text of `lefence replay`, over texts in memory.

ghost use Rattle.std.specs.Prelude.{◌≡◌, false};

use lf_app::{
    Acceptor, BindFailure, ClientReader, ClientWriter, Connection, Environment, InputFiles, NoHub,
    NoProgress, PortListener, ReadFailure, ServiceConfig, Slots, Task, perform_over, single_chunk,
};
use lf_io::{DeviceFault, FromRead, OutputFiles, TextSource, ToWrite, WriteFailure};
use lf_units::Sequence;
use std::alloc::{AllocError, Global};
use std::collections::VecDeque;
use std::io::{Empty, Read, Write};

/// The path of the LEF text. Every other path is that of the DEF text.
const LEF: &str = "row.lef";

/// The texts of a row.
#[derive(Clone, Copy)]
pub struct RowTexts<'a> {
    pub alloc: Global,
    pub lef: &'a [u8],
    pub def: &'a [u8],
}

impl<'a> InputFiles for RowTexts<'a> {
    fn text(&self, path: &str) -> Result<Vec<u8>, ReadFailure> {
        let text = if path == LEF { self.lef } else { self.def };
        match Vec::from_slice(self.alloc, text) {
            Ok(copy) => Ok(copy),
            Err(_) => Err(ReadFailure::OutOfMemory),
        }
    }

    fn pieces(&self, alloc: Global, path: &str) -> Result<VecDeque<Vec<u8>>, ReadFailure> {
        single_chunk(alloc, self.text(path)?)
    }
}

/// The last exported text.
#[derive(Drop)]
struct KeptExport {
    text: Vec<u8>,
}

impl OutputFiles for KeptExport {
    ghost has_failed = { λ _. false };

    fn try_path(&mut self, _path: &str) -> Result<(), WriteFailure> {
        Ok(())
    }

    fn put<P: TextSource>(&mut self, _path: &str, text: &P) -> Result<(), WriteFailure> {
        self.text.clear();
        match text.write_to(&mut self.text) {
            Ok(()) => Ok(()),
            Err(_) => Err(WriteFailure::OutOfMemory),
        }
    }
}

/// A listener on which no service can be offered.
#[derive(Clone, Copy)]
struct NoServices {
    failed: bool,
}

impl Acceptor for NoServices {
    type Reader = ClientReader<Empty>;

    type Writer = ClientWriter<Vec<u8>>;

    ghost has_failed = { λ s. s.failed };

    fn accept(
        &mut self,
    ) -> Result<Connection<ClientReader<Empty>, ClientWriter<Vec<u8>>>, DeviceFault> {
        self.failed = true;
        Err(DeviceFault)
    }

    fn close(&mut self, connection: Connection<ClientReader<Empty>, ClientWriter<Vec<u8>>>)
        ensures failed { self.new.failed ≡ self.old.failed }
    {
        drop(connection);
    }
}

impl PortListener for NoServices {
    fn listen(&mut self, _offer: &ServiceConfig) -> Result<(), BindFailure> {
        self.failed = true;
        Err(BindFailure::Other)
    }
}

/// What a task wrote, and the text that it exported, if any.
#[derive(Drop)]
pub struct Shipped {
    pub written: Vec<u8>,
    pub exported: Vec<u8>,
}

/// Does the task over these texts and streams. Returns the exported text.
fn exported_by<R: Read, W: Write, F: Write>(
    texts: &RowTexts<'_>,
    task: &Task<'_>,
    reader: &mut R,
    writer: &mut W,
    faults: &mut F,
) -> Vec<u8> {
    let exports = KeptExport {
        text: Vec::new(texts.alloc),
    };
    let mut environment = Environment::new(
        *texts,
        exports,
        NoServices { failed: false },
        FromRead::new(reader),
        ToWrite::new(writer),
        ToWrite::new(faults),
        NoProgress,
    );
    perform_over(texts.alloc, &mut environment, &NoHub, task);
    environment.exports.text
}

/// Does the task over these texts and lines. The lines of a fault follow what is written.
fn performed(texts: &RowTexts<'_>, task: &Task<'_>, lines: &[u8]) -> Result<Shipped, AllocError> {
    let mut reader = lines;
    let mut written = Vec::new(texts.alloc);
    let mut faults = Vec::new(texts.alloc);
    let exported = exported_by(texts, task, &mut reader, &mut written, &mut faults);
    written.extend_from_slice(&faults)?;
    Ok(Shipped { written, exported })
}

/// Makes the list of the LEF path alone.
fn lef_alone(alloc: Global) -> Result<Sequence<&'static str>, AllocError> {
    let mut lefs = Sequence::new(alloc);
    lefs.push(LEF)?;
    Ok(lefs)
}

/// Returns what `lefence check` writes.
pub fn report(texts: &RowTexts<'_>) -> Result<Vec<u8>, AllocError> {
    let task = Task::Check {
        def: "row.def",
        lefs: lef_alone(texts.alloc)?,
        state: None,
        slots: Slots::standard(),
        committed: false,
    };
    Ok(performed(texts, &task, b"")?.written)
}

/// Returns what `lefence replay --export` writes for these lines.
pub fn replay(texts: &RowTexts<'_>, lines: &[u8]) -> Result<Shipped, AllocError> {
    let task = Task::Replay {
        def: "row.def",
        lefs: lef_alone(texts.alloc)?,
        state: None,
        slots: Slots::standard(),
        journal: None,
        lines: 1_000,
        save: None,
        export: Some("row.out"),
    };
    performed(texts, &task, lines)
}
