//! Tasks over files in memory.

ghost use Rattle.std.specs.Prelude.{◌≡◌};
ghost use Rattle.lf_server.specs.Connections.{Closes, connection_state};
ghost use Rattle.lf_server.specs.Devices.{writer};

use crate::shelf::Shelf;
use lf_app::{
    Acceptor, BindFailure, ClientReader, ClientWriter, Connection, Environment, FsInputFiles,
    ImproveOptions, NetListener, NoHub, NoProgress, PortListener, RepairFiles, ServiceConfig,
    Slots, Task, TaskExit, perform, perform_over,
};
use lf_def::DEMO_DEF;
use lf_io::{
    DeviceFault, FromRead, OutputFiles, TextSource, ToWrite, WriteFailure, WriteFailureKind,
};
use lf_lef::DEMO_LEF;
use lf_server::ServeLimits;
use lf_tests_support::with_line;
use lf_units::Sequence;
use std::alloc::{AllocError, Global};
use std::io;
use std::io::{Read, Write};
use std::net::{Ipv4Addr, Net, OpenListener, SocketAddr};
use std::test::Fail;

/// Exported texts: the last one, with its path. Without a path, every text is refused.
#[derive(Drop)]
pub(crate) struct Kept<'a> {
    path: Option<&'a str>,
    pub(crate) text: Option<Vec<u8>>,
    /// The number of texts that were to be written, to any path, accepted or not.
    requested: u32,
    /// Whether texts are refused, though the path is accepted.
    is_full: bool,
    /// Whether a text or its path was refused.
    failed: bool,
    alloc: Global,
}

impl<'a> Kept<'a> {
    /// Accepts texts for this path.
    pub(crate) fn at(alloc: Global, path: Option<&'a str>) -> Self {
        Kept {
            path,
            text: None,
            requested: 0,
            is_full: false,
            failed: false,
            alloc,
        }
    }

    /// Returns whether a text was written, and the last one is this.
    pub(crate) fn holds(&self, text: &[u8]) -> bool {
        match &self.text {
            Some(kept) => kept.as_slice() == text,
            None => false,
        }
    }
}

impl<'a> OutputFiles for Kept<'a> {
    ghost has_failed = { λ k. k.failed };

    fn try_path(&mut self, path: &str) -> Result<(), WriteFailure> {
        if self.path != Some(path) {
            self.failed = true;
            return Err(WriteFailure::File(WriteFailureKind::Denied));
        }
        Ok(())
    }

    fn put<P: TextSource>(&mut self, path: &str, text: &P) -> Result<(), WriteFailure> {
        self.requested = self.requested.saturating_add(1);
        if self.is_full || self.path != Some(path) {
            self.failed = true;
            return Err(WriteFailure::File(WriteFailureKind::Denied));
        }
        let mut kept = Vec::new(self.alloc);
        match text.write_to(&mut kept) {
            Ok(()) => {
                self.text = Some(kept);
                Ok(())
            }
            Err(_) => Err(WriteFailure::OutOfMemory),
        }
    }
}

/// Services that are recorded. No service can be offered.
#[derive(Clone, Copy, Debug, PartialEq, Eq)]
struct Noted {
    /// The last one.
    offer: Option<ServiceConfig>,
    failed: bool,
}

impl Noted {
    /// Makes a record without services.
    fn new() -> Self {
        Noted {
            offer: None,
            failed: false,
        }
    }
}

impl Acceptor for Noted {
    type Reader = ClientReader<&'static [u8]>;

    type Writer = ClientWriter<Vec<u8>>;

    ghost has_failed = { λ n. n.failed };

    fn accept(
        &mut self,
    ) -> Result<Connection<ClientReader<&'static [u8]>, ClientWriter<Vec<u8>>>, DeviceFault> {
        self.failed = true;
        Err(DeviceFault)
    }

    fn close(&mut self, connection: Connection<ClientReader<&'static [u8]>, ClientWriter<Vec<u8>>>)
        ensures failed { self.new.failed ≡ self.old.failed }
    {
        drop(connection);
    }
}

impl PortListener for Noted {
    fn listen(&mut self, offer: &ServiceConfig) -> Result<(), BindFailure> {
        self.offer = Some(*offer);
        self.failed = true;
        Err(BindFailure::InUse)
    }
}

/// Exported texts that are kept in a borrowed record.
#[derive(Drop)]
struct KeptThere<'a, 'b> {
    kept: &'a mut Kept<'b>,
}

impl<'a, 'b> OutputFiles for KeptThere<'a, 'b> {
    ghost has_failed = { λ k. k.kept.now.failed };

    fn try_path(&mut self, path: &str) -> Result<(), WriteFailure> {
        self.kept.try_path(path)
    }

    fn put<P: TextSource>(&mut self, path: &str, text: &P) -> Result<(), WriteFailure> {
        self.kept.put(path, text)
    }
}

/// Services of a borrowed listener.
#[derive(Drop)]
struct OfferedThere<'a, V> {
    services: &'a mut V,
}

impl<'a, V: Acceptor> Acceptor for OfferedThere<'a, V> {
    type Reader = V::Reader;

    type Writer = V::Writer;

    ghost accepted = { λ s. V.accepted s.services.now };

    ghost offers = { λ s. V.offers s.services.now };

    ghost has_failed = { λ s. V.has_failed s.services.now };

    fn accept(&mut self) -> Result<Connection<V::Reader, V::Writer>, DeviceFault> {
        self.services.accept()
    }

    fn close(&mut self, connection: Connection<V::Reader, V::Writer>)
        ensures closed { Closes (V.accepted self.old.services.now) (V.accepted self.new.services.now)
            (connection_state (V.Reader.remaining connection.reader) (V.Reader.reads connection.reader)
            (V.Reader.has_failed connection.reader)
            (writer (V.Writer.contents connection.writer) (V.Writer.is_flushed connection.writer)
            (V.Writer.has_failed connection.writer))) }
        ensures offers { V.offers self.new.services.now ≡ V.offers self.old.services.now }
        ensures failed { V.has_failed self.new.services.now ≡ V.has_failed self.old.services.now }
    {
        self.services.close(connection);
    }
}

impl<'a, V: PortListener> PortListener for OfferedThere<'a, V> {
    fn listen(&mut self, offer: &ServiceConfig) -> Result<(), BindFailure> {
        self.services.listen(offer)
    }
}

/// How a task ends, and the number of texts that were to be written to a file.
#[derive(Clone, Copy, Debug, PartialEq, Eq)]
struct End {
    exit: TaskExit,
    requested: u32,
}

/// Does the demo over a reader and a writer.
fn demo<R: Read, W: Write, F: Write>(
    rt: &HostRuntime,
    reader: &mut R,
    writer: &mut W,
    faults: &mut F,
) -> End {
    let mut exports = Kept::at(rt.alloc(), None);
    let mut services = Noted::new();
    let streams = StandardStreams {
        reader,
        writer,
        faults,
    };
    with_devices(rt, &[], &mut exports, &mut services, &Task::Demo, streams)
}

/// The end of a task with this status, whose faults were all reported and that was to write no
/// file.
fn reported(status: u8) -> End {
    End {
        exit: TaskExit {
            status,
            is_printed: true,
        },
        requested: 0,
    }
}

/// The run of a task: how it ends, what it writes, and its fault lines.
#[derive(Drop)]
pub(crate) struct Run {
    end: End,
    pub(crate) written: Vec<u8>,
    faults: Vec<u8>,
}

impl Run {
    /// Returns whether the run has this end, output and fault lines.
    fn ends(&self, end: End, written: &str, faults: &str) -> bool {
        self.end == end
            && self.written.as_slice() == written.as_bytes()
            && self.faults.as_slice() == faults.as_bytes()
    }

    /// Returns whether the run has this status, output and fault lines, reported all its faults,
    /// and was to write no file.
    pub(crate) fn is(&self, status: u8, written: &str, faults: &str) -> bool {
        self.ends(reported(status), written, faults)
    }

    /// The same for a task that was to write one file.
    pub(crate) fn is_put(&self, status: u8, written: &str, faults: &str) -> bool {
        let end = End {
            requested: 1,
            ..reported(status)
        };
        self.ends(end, written, faults)
    }
}

/// Does the demo over a reader.
fn demo_of<R: Read>(rt: &HostRuntime, reader: &mut R) -> Run {
    let mut written = Vec::new(rt.alloc());
    let mut faults = Vec::new(rt.alloc());
    let end = demo(rt, reader, &mut written, &mut faults);
    Run {
        end,
        written,
        faults,
    }
}

/// Joins the bytes of these parts.
fn joined(alloc: Global, parts: &[&[u8]]) -> Result<Vec<u8>, AllocError> {
    let mut bytes = Vec::new(alloc);
    for part in parts {
        bytes.extend_from_slice(part)?;
    }
    Ok(bytes)
}

/// One of the last two lines is a byte longer than the longest line that is read, and the other is
/// as long as that.
#[test]
fn a_line_that_is_no_request_is_refused(rt: HostRuntime) -> Result<(), Fail> {
    let parts: [&[u8]; 6] = [
        b"open A\n\nwhere A 0\nplace A 0 a1 2147483648 0 N\ndef A\n\xff\x00\nopen A\r\n",
        b"open A",
        &[b' '; 4091],
        b"\n",
        b"open A",
        &[b' '; 4090],
    ];
    let input = joined(rt.alloc(), parts.as_slice())?;
    let replies = "ok 0 0\nno 1 BadRequest\nno 1 BadRequest\nno 1 BadRequest\nno 1 BadRequest\n\
        no 1 BadRequest\nok 1 0\nno 1 BadRequest\nok 2 0\n";
    assert!(rt; demo_of(&rt, &mut input.as_slice()).is(0, replies, ""));
    Ok(())
}

/// A device whose calls all fail.
#[derive(Drop)]
pub(crate) struct Failing;

impl Read for Failing {
    fn read(&mut self, _buffer: &mut [u8]) -> io::Result<usize> {
        Err(io::Error::from(io::ErrorKind::Other))
    }
}

impl Write for Failing {
    fn write(&mut self, _bytes: &[u8]) -> io::Result<usize> {
        Err(io::Error::from(io::ErrorKind::Other))
    }

    fn flush(&mut self) -> io::Result<()> {
        Err(io::Error::from(io::ErrorKind::Other))
    }
}

/// Returns whether the demo over these devices ends with status 3 and this fault line.
fn fails<R: Read, W: Write>(rt: &HostRuntime, reader: &mut R, writer: &mut W, fault: &str) -> bool {
    let mut faults = Vec::new(rt.alloc());
    let end = demo(rt, reader, writer, &mut faults);
    end == reported(3) && faults.as_slice() == fault.as_bytes()
}

#[test]
fn a_device_that_fails_ends_the_demo(rt: HostRuntime) {
    let mut written = Vec::new(rt.alloc());
    assert!(rt; fails(&rt, &mut Failing, &mut written, "lefence: ReadFault\n"));
    let mut reader = b"open A\n".as_slice();
    assert!(rt; fails(&rt, &mut reader, &mut Failing, "lefence: WriteFault\n"));
}

#[test]
fn a_fault_that_cannot_be_reported_is_no_further_fault(rt: HostRuntime) {
    let mut written = Vec::new(rt.alloc());
    let end = demo(&rt, &mut Failing, &mut written, &mut Failing);
    let unreported = End {
        exit: TaskExit {
            status: 3,
            is_printed: false,
        },
        requested: 0,
    };
    assert_eq!(rt; end, unreported);
}

/// The standard streams of a task.
#[derive(Drop)]
struct StandardStreams<'a, R, W, F> {
    reader: &'a mut R,
    writer: &'a mut W,
    faults: &'a mut F,
}

/// Does the task over the files on the shelf, with these services and streams, and exported texts
/// kept in memory.
fn with_devices<V: PortListener, R: Read, W: Write, F: Write>(
    rt: &HostRuntime,
    files: &[(&str, Option<&[u8]>)],
    exports: &mut Kept<'_>,
    services: &mut V,
    task: &Task<'_>,
    streams: StandardStreams<'_, R, W, F>,
) -> End {
    let StandardStreams {
        reader,
        writer,
        faults,
    } = streams;
    let shelf = Shelf {
        alloc: rt.alloc(),
        files,
    };
    let mut around = Environment::new(
        FsInputFiles::new(&shelf),
        KeptThere { kept: exports },
        OfferedThere { services },
        FromRead::new(reader),
        ToWrite::new(writer),
        ToWrite::new(faults),
        NoProgress,
    );
    let exit = perform_over(rt.alloc(), &mut around, &NoHub, task);
    End {
        exit,
        requested: around.exports.kept.requested,
    }
}

/// Does the task over the files on the shelf, with these services, and exported texts kept in
/// memory.
fn offering<V: PortListener, R: Read>(
    rt: &HostRuntime,
    files: &[(&str, Option<&[u8]>)],
    exports: &mut Kept<'_>,
    services: &mut V,
    task: &Task<'_>,
    reader: &mut R,
) -> Run {
    let mut written = Vec::new(rt.alloc());
    let mut faults = Vec::new(rt.alloc());
    let streams = StandardStreams {
        reader,
        writer: &mut written,
        faults: &mut faults,
    };
    let end = with_devices(rt, files, exports, services, task, streams);
    Run {
        end,
        written,
        faults,
    }
}

/// Does the task over the files on the shelf, with exported texts kept in memory. No service can be
/// offered.
pub(crate) fn exporting<R: Read>(
    rt: &HostRuntime,
    files: &[(&str, Option<&[u8]>)],
    exports: &mut Kept<'_>,
    task: &Task<'_>,
    reader: &mut R,
) -> Run {
    let mut services = Noted::new();
    offering(rt, files, exports, &mut services, task, reader)
}

/// Does the task over the files on the shelf. No text can be exported.
pub(crate) fn done(
    rt: &HostRuntime,
    files: &[(&str, Option<&[u8]>)],
    task: &Task<'_>,
    input: &str,
) -> Run {
    let mut exports = Kept::at(rt.alloc(), None);
    exporting(rt, files, &mut exports, task, &mut input.as_bytes())
}

/// The path of the only LEF file of the sample.
const LEFS: &[&str] = &["w.lef"];

/// Replays `w.def` over the LEF files of these paths, with the files on the shelf.
fn replayed(
    rt: &HostRuntime,
    files: &[(&str, Option<&[u8]>)],
    lefs: &[&str],
    input: &str,
) -> Result<Run, AllocError> {
    let task = Task::Replay {
        def: "w.def",
        lefs: Sequence::from_vec(Vec::from_slice(rt.alloc(), lefs)?),
        state: None,
        slots: Slots::standard(),
        journal: None,
        lines: 1_000_000,
        save: None,
        export: None,
    };
    Ok(done(rt, files, &task, input))
}

/// Makes the list of the only LEF file's path, for a task.
pub(crate) fn only_lef<'a>(alloc: Global) -> Result<Sequence<&'a str>, AllocError> {
    let paths: &'a [&'a str] = LEFS;
    match Vec::from_slice(alloc, paths) {
        Ok(lefs) => Ok(Sequence::from_vec(lefs)),
        Err(error) => Err(error),
    }
}

/// The check of `w.def` over `w.lef`.
fn check_of_w<'a>(alloc: Global) -> Result<Task<'a>, AllocError> {
    Ok(Task::Check {
        def: "w.def",
        lefs: only_lef(alloc)?,
        state: None,
        slots: Slots::standard(),
        committed: false,
    })
}

/// The sample LEF text as `w.lef`, and this DEF text as `w.def`.
pub(crate) fn files_of<'a>(def: &'a [u8]) -> [(&'a str, Option<&'a [u8]>); 2] {
    [("w.lef", Some(DEMO_LEF)), ("w.def", Some(def))]
}

/// Returns whether the check over these files has this status, report and fault lines.
fn checks(
    rt: &HostRuntime,
    files: &[(&str, Option<&[u8]>)],
    status: u8,
    report: &str,
    faults: &str,
) -> Result<bool, AllocError> {
    let task = check_of_w(rt.alloc())?;
    Ok(done(rt, files, &task, "open A\n").is(status, report, faults))
}

/// Returns whether a replay over these files has this status and fault lines, and writes nothing.
fn ends(
    rt: &HostRuntime,
    files: &[(&str, Option<&[u8]>)],
    lefs: &[&str],
    status: u8,
    fault: &str,
) -> Result<bool, AllocError> {
    let run = replayed(rt, files, lefs, "open A\n")?;
    Ok(run.is(status, "", fault))
}

#[test]
fn a_design_of_files_is_replayed(rt: HostRuntime) -> Result<(), Fail> {
    let input = "open A\nplace A 0 a1 0 0 N\nwhere A 0 a1\n";
    let run = replayed(&rt, &files_of(DEMO_DEF), LEFS, input)?;
    assert!(rt; run.is(0, "ok 0 0\nok 1\nok 0 0 N\n", ""));
    Ok(())
}

/// Returns whether a replay of three lines, with this limit on lines, has this status, these
/// replies and this fault.
fn answers_at_most(
    rt: &HostRuntime,
    lines: u32,
    status: u8,
    replies: &str,
    fault: &str,
) -> Result<bool, AllocError> {
    let task = Task::Replay {
        def: "w.def",
        lefs: only_lef(rt.alloc())?,
        state: None,
        slots: Slots::standard(),
        journal: None,
        lines,
        save: None,
        export: None,
    };
    let run = done(rt, &files_of(DEMO_DEF), &task, "open A\nopen A\nopen A\n");
    Ok(run.is(status, replies, fault))
}

#[test]
fn a_replay_answers_as_many_lines_as_it_says(rt: HostRuntime) -> Result<(), Fail> {
    let replies = "ok 0 0\nok 1 0\nok 2 0\n";
    assert!(rt; answers_at_most(&rt, 3, 0, replies, "")?);
    let fault = "lefence: TooManyLines\n";
    assert!(rt; answers_at_most(&rt, 2, 3, "ok 0 0\nok 1 0\n", fault)?);
    Ok(())
}

/// The fence of B is one unit too wide, for a replay and for a check.
#[test]
fn fences_that_overlap_are_refused(rt: HostRuntime) -> Result<(), Fail> {
    let fence = b"- B ( 3999 0 ) ( 10000 8000 ) + TYPE FENCE ;";
    let def = with_line(rt.alloc(), DEMO_DEF, 12, fence)?;
    let fault = "lefence: 21 FencesOverlap B\n\
        lefence: DEF file w.def, line 12 (overlaps fence A of line 11): - B ( 3999 0 ) ( 10000 8000 ) + TYPE FENCE ;\n";
    assert!(rt; ends(&rt, &files_of(&def), LEFS, 1, fault)?);
    assert!(rt; checks(&rt, &files_of(&def), 1, "", fault)?);
    Ok(())
}

#[test]
fn a_text_with_a_fault_is_refused_with_its_line(rt: HostRuntime) -> Result<(), Fail> {
    let def = with_line(rt.alloc(), DEMO_DEF, 20, b"END REGIONS")?;
    let fault = "lefence: 5 WrongEnd line 20\nlefence: DEF file w.def, line 20: END REGIONS\n";
    assert!(rt; ends(&rt, &files_of(&def), LEFS, 1, fault)?);
    Ok(())
}

#[test]
fn lef_files_are_read_in_order_up_to_the_first_fault(rt: HostRuntime) -> Result<(), Fail> {
    let files = [
        ("w.lef", Some(DEMO_LEF)),
        ("bad.lef", Some(b"SITE\t; \xff\n".as_slice())),
        ("cut.lef", Some(b"SITE core\n".as_slice())),
    ];
    let both = ["w.lef", "bad.lef", "cut.lef"];
    let fault =
        "lefence: 3 Unexpected line 1\nlefence: LEF file bad.lef, line 1: SITE\\x09; \\xff\n";
    assert!(rt; ends(&rt, files.as_slice(), both.as_slice(), 1, fault)?);
    let both = ["w.lef", "cut.lef", "bad.lef"];
    let fault = "lefence: 2 UnexpectedEnd line 2\nlefence: LEF file cut.lef, line 2: \n";
    assert!(rt; ends(&rt, files.as_slice(), both.as_slice(), 1, fault)?);
    Ok(())
}

/// The built-in LEF text is no part of a replay.
#[test]
fn a_replay_reads_its_own_lef_files_alone(rt: HostRuntime) -> Result<(), Fail> {
    let files = [("x.lef", Some(b"".as_slice())), ("w.def", Some(DEMO_DEF))];
    let fault = "lefence: 8 NoSite core\n\
        lefence: DEF file w.def, line 6: ROW r0 core 0 0 N DO 50 BY 1 STEP 200 0 ;\n";
    assert!(rt; ends(&rt, files.as_slice(), ["x.lef"].as_slice(), 1, fault)?);
    Ok(())
}

#[test]
fn a_file_that_cannot_be_read_is_a_fault(rt: HostRuntime) -> Result<(), Fail> {
    let files = [("w.lef", Some(DEMO_LEF)), ("folder", None)];
    let fault = "lefence: File\nlefence: DEF file w.def cannot be read: there is no such file\n";
    assert!(rt; ends(&rt, files.as_slice(), LEFS, 3, fault)?);
    let fault = "lefence: File\nlefence: LEF file x.lef cannot be read: there is no such file\n";
    assert!(rt; ends(&rt, files.as_slice(), ["x.lef"].as_slice(), 3, fault)?);
    let fault = "lefence: File\nlefence: LEF file folder cannot be read\n";
    assert!(rt; ends(&rt, files.as_slice(), ["folder"].as_slice(), 3, fault)?);
    Ok(())
}

/// The sample DEF text, with these entries as its first components. The first one is in line 15.
pub(crate) fn with_entries(alloc: Global, entries: &[&[u8]]) -> Result<Vec<u8>, AllocError> {
    let mut text = Vec::from_slice(alloc, DEMO_DEF)?;
    for (i, entry) in entries.iter().enumerate() {
        text = with_line(alloc, &text, 15 + i, entry)?;
    }
    Ok(text)
}

/// Returns whether the check of the sample with a place for each cell has this status and report.
/// The second cell has this entry.
fn checks_placed(
    rt: &HostRuntime,
    second: &[u8],
    status: u8,
    report: &str,
) -> Result<bool, AllocError> {
    let entries: [&[u8]; 5] = [
        b"- a1 INV + PLACED ( 0 0 ) N ;",
        second,
        b"- a3 DBL + PLACED ( 800 0 ) N ;",
        b"- b1 INV + PLACED ( 6000 0 ) N ;",
        b"- g1 INV + PLACED ( 4400 0 ) N ;",
    ];
    let def = with_entries(rt.alloc(), entries.as_slice())?;
    checks(rt, &files_of(&def), status, report, "")
}

#[test]
fn a_design_is_checked(rt: HostRuntime) -> Result<(), Fail> {
    let report = "{\"cells\":5,\"unplaced\":5,\"violations\":[]}\n";
    assert!(rt; checks(&rt, &files_of(DEMO_DEF), 4, report, "")?);
    let report = "{\"cells\":5,\"unplaced\":0,\"violations\":[]}\n";
    assert!(rt; checks_placed(&rt, b"- a2 INV + PLACED ( 400 0 ) N ;", 0, report)?);
    let report = "{\"cells\":5,\"unplaced\":0,\"violations\":\
        [{\"cell\":\"a1\",\"other\":\"a2\",\"rule\":8},{\"cell\":\"a2\",\"other\":\"a1\",\"rule\":8}]}\n";
    assert!(rt; checks_placed(&rt, b"- a2 INV + PLACED ( 200 0 ) N ;", 4, report)?);
    Ok(())
}

/// The description of the sample, in which no cell is placed.
const DESCRIPTION: &str = "\
    {\"kind\":\"design\",\"name\":\"w\",\"site\":\"core\",\"site_height\":2000,\"site_width\":200,\"units\":1000}\n\
    {\"box\":[0,0,10000,2000],\"kind\":\"row\",\"name\":\"r0\",\"orient\":\"N\",\"sites\":50}\n\
    {\"box\":[0,2000,10000,4000],\"kind\":\"row\",\"name\":\"r1\",\"orient\":\"FS\",\"sites\":50}\n\
    {\"box\":[0,4000,10000,6000],\"kind\":\"row\",\"name\":\"r2\",\"orient\":\"N\",\"sites\":50}\n\
    {\"box\":[0,6000,10000,8000],\"kind\":\"row\",\"name\":\"r3\",\"orient\":\"FS\",\"sites\":50}\n\
    {\"kind\":\"fence\",\"name\":\"A\",\"rects\":[[0,0,4000,4000]]}\n\
    {\"kind\":\"fence\",\"name\":\"B\",\"rects\":[[6000,0,10000,8000]]}\n\
    {\"box\":[4000,0,4400,2000],\"kind\":\"obstacle\",\"name\":null}\n\
    {\"box\":null,\"height\":2000,\"kind\":\"cell\",\"macro\":\"INV\",\"name\":\"a1\",\"orient\":null,\"other\":null,\"rule\":null,\"team\":\"A\",\"width\":400}\n\
    {\"box\":null,\"height\":2000,\"kind\":\"cell\",\"macro\":\"INV\",\"name\":\"a2\",\"orient\":null,\"other\":null,\"rule\":null,\"team\":\"A\",\"width\":400}\n\
    {\"box\":null,\"height\":4000,\"kind\":\"cell\",\"macro\":\"DBL\",\"name\":\"a3\",\"orient\":null,\"other\":null,\"rule\":null,\"team\":\"A\",\"width\":600}\n\
    {\"box\":null,\"height\":2000,\"kind\":\"cell\",\"macro\":\"INV\",\"name\":\"b1\",\"orient\":null,\"other\":null,\"rule\":null,\"team\":\"B\",\"width\":400}\n\
    {\"box\":null,\"height\":2000,\"kind\":\"cell\",\"macro\":\"INV\",\"name\":\"g1\",\"orient\":null,\"other\":null,\"rule\":null,\"team\":\"-\",\"width\":400}\n\
    {\"bins\":1,\"fullest_10\":0,\"fullest_2\":0,\"fullest_20\":0,\"fullest_5\":0,\"kind\":\"density\",\"side\":10000}\n\
    {\"cells\":5,\"fences\":2,\"illegal\":0,\"kind\":\"total\",\"obstacles\":1,\"rows\":4,\"soft\":0,\"unplaced\":5}\n";

#[test]
fn a_design_is_described(rt: HostRuntime) -> Result<(), Fail> {
    let task = Task::Describe {
        def: "w.def",
        lefs: only_lef(rt.alloc())?,
        state: None,
        slots: Slots::standard(),
    };
    assert!(rt; done(&rt, &files_of(DEMO_DEF), &task, "open A\n").is(4, DESCRIPTION, ""));
    Ok(())
}

/// Nets of the sample: one of two cells, of an unplaced cell and of a pin that is not there, and a
/// supply.
const NETS: &[u8] = b"END BLOCKAGES
NETS 2 ;
- n ( b1 VDD ) ( g1 VSS ) ( a2 VDD ) ( b1 Q ) ;
- v ( a1 VDD ) + USE POWER ;
END NETS";

/// Their lengths. The pins that count are at (6200, 2000) and (4600, 0).
const LENGTHS: &str = "\
    {\"crossing\":0,\"crossing_nets\":0,\"nets\":0,\"own\":0,\"team\":\"A\"}\n\
    {\"crossing\":3600,\"crossing_nets\":1,\"nets\":0,\"own\":0,\"team\":\"B\"}\n\
    {\"crossing\":3600,\"crossing_nets\":1,\"nets\":0,\"own\":0,\"team\":\"-\"}\n\
    {\"crossing\":3600,\"crossing_nets\":1,\"doubled\":7200,\"fixed_nets\":0,\"length\":3600,\"nets\":1,\
    \"one_pin\":0,\"pins\":2,\"supplies\":1,\"teams\":3,\"unknown\":1,\"unplaced\":1}\n";

/// The sample with its nets and two placed cells.
fn netted_def(alloc: Global) -> Result<Vec<u8>, AllocError> {
    let b1 = b"- b1 INV + PLACED ( 6000 2000 ) FS ;";
    let def = with_line(alloc, DEMO_DEF, 18, b1)?;
    let def = with_line(alloc, &def, 19, b"- g1 INV + PLACED ( 4400 0 ) N ;")?;
    with_line(alloc, &def, 23, NETS)
}

#[test]
fn a_design_is_measured(rt: HostRuntime) -> Result<(), Fail> {
    let def = netted_def(rt.alloc())?;
    let task = Task::Wirelength {
        def: "w.def",
        lefs: only_lef(rt.alloc())?,
        state: None,
        slots: Slots::standard(),
    };
    assert!(rt; done(&rt, &files_of(&def), &task, "open A\n").is(0, LENGTHS, ""));
    Ok(())
}

/// The report of its improvement. A has cells without a place, b1 is at the nearest edge of its
/// fence, and g1 goes there too.
const IMPROVEMENT: &str = "\
    {\"cells\":3,\"crossing\":0,\"crossing_before\":0,\"largest\":0,\"mean\":0,\"moved\":0,\
    \"own\":0,\"own_before\":0,\"skipped\":true,\"team\":\"A\",\"total\":0,\"turned\":0}\n\
    {\"cells\":1,\"crossing\":2400,\"crossing_before\":3600,\"largest\":0,\"mean\":0,\"moved\":0,\
    \"own\":0,\"own_before\":0,\"skipped\":false,\"team\":\"B\",\"total\":0,\"turned\":0}\n\
    {\"cells\":1,\"crossing\":2400,\"crossing_before\":3600,\"largest\":3200,\"mean\":3200,\"moved\":1,\
    \"own\":0,\"own_before\":0,\"skipped\":false,\"team\":\"-\",\"total\":3200,\"turned\":1}\n\
    {\"cells\":5,\"doubled\":4800,\"doubled_before\":7200,\"fullest_10\":20,\
    \"fullest_10_before\":20,\"fullest_2\":20,\"fullest_20\":20,\"fullest_20_before\":20,\
    \"fullest_2_before\":20,\"fullest_5\":20,\"fullest_5_before\":20,\"largest\":3200,\
    \"legal\":false,\"length\":2400,\"length_before\":3600,\"mean\":3200,\"moved\":1,\
    \"pins_10\":2,\"pins_10_before\":2,\"pins_2\":2,\"pins_20\":2,\"pins_20_before\":2,\
    \"pins_2_before\":2,\"pins_5\":2,\"pins_5_before\":2,\
    \"skipped\":1,\"teams\":3,\"total\":3200,\"turned\":1}\n";

#[test]
fn a_design_is_improved(rt: HostRuntime) -> Result<(), Fail> {
    let def = netted_def(rt.alloc())?;
    let task = Task::Improve {
        def: "w.def",
        lefs: only_lef(rt.alloc())?,
        slots: Slots::standard(),
        teams: Sequence::new(rt.alloc()),
        within: None,
        options: ImproveOptions {
            rounds: 4,
            moves: 0,
            density: None,
        },
        files: RepairFiles {
            export: None,
            working: None,
            lines: None,
            save: None,
        },
    };
    assert!(rt; done(&rt, &files_of(&def), &task, "open A\n").is(4, IMPROVEMENT, ""));
    Ok(())
}

#[test]
fn a_check_without_its_file_is_a_fault(rt: HostRuntime) -> Result<(), Fail> {
    let files = [("w.lef", Some(DEMO_LEF))];
    let fault = "lefence: File\nlefence: DEF file w.def cannot be read: there is no such file\n";
    assert!(rt; checks(&rt, files.as_slice(), 3, "", fault)?);
    Ok(())
}

/// A device that accepts every byte and cannot be flushed.
#[derive(Drop)]
struct Unflushed;

impl Write for Unflushed {
    fn write(&mut self, bytes: &[u8]) -> io::Result<usize> {
        Ok(bytes.len())
    }

    fn flush(&mut self) -> io::Result<()> {
        Err(io::Error::from(io::ErrorKind::Other))
    }
}

/// A device that keeps the bytes written, with a bar for each flush.
#[derive(Drop)]
struct Log {
    taken: Vec<u8>,
}

impl Write for Log {
    fn write(&mut self, bytes: &[u8]) -> io::Result<usize> {
        self.taken.extend_from_slice(bytes)?;
        Ok(bytes.len())
    }

    fn flush(&mut self) -> io::Result<()> {
        self.taken.push(b'|')?;
        Ok(())
    }
}

/// A device that returns these bytes and then fails.
#[derive(Drop)]
struct Cut<'a> {
    bytes: &'a [u8],
}

impl<'a> Read for Cut<'a> {
    fn read(&mut self, buffer: &mut [u8]) -> io::Result<usize> {
        if self.bytes.is_empty() {
            return Err(io::Error::from(io::ErrorKind::Other));
        }
        self.bytes.read(buffer)
    }
}

/// Returns whether the demo over this reader has this status, and writes these bytes, with a bar
/// for each flush.
fn logs<R: Read>(rt: &HostRuntime, reader: &mut R, status: u8, taken: &str) -> bool {
    let mut faults = Vec::new(rt.alloc());
    let mut log = Log {
        taken: Vec::new(rt.alloc()),
    };
    let end = demo(rt, reader, &mut log, &mut faults);
    end == reported(status) && log.taken.as_slice() == taken.as_bytes()
}

#[test]
fn each_reply_is_flushed(rt: HostRuntime) {
    let mut reader = b"open A\nopen A\nopen A".as_slice();
    assert!(rt; logs(&rt, &mut reader, 0, "ok 0 0\n|ok 1 0\n|ok 2 0\n|"));
    let mut reader = Cut {
        bytes: b"open A\nopen A",
    };
    assert!(rt; logs(&rt, &mut reader, 3, "ok 0 0\n|"));
}

/// Returns whether the task over the sample, which reads nothing and writes to this device, ends
/// with a fault of its output.
fn is_output_fault<W: Write>(rt: &HostRuntime, task: &Task<'_>, writer: &mut W) -> bool {
    let files = files_of(DEMO_DEF);
    let mut exports = Kept::at(rt.alloc(), None);
    let mut services = Noted::new();
    let mut faults = Vec::new(rt.alloc());
    let streams = StandardStreams {
        reader: &mut Failing,
        writer,
        faults: &mut faults,
    };
    let files = files.as_slice();
    let end = with_devices(rt, files, &mut exports, &mut services, task, streams);
    end == reported(3) && faults.as_slice() == b"lefence: Output\n".as_slice()
}

#[test]
fn a_report_that_cannot_be_written_is_a_fault(rt: HostRuntime) -> Result<(), Fail> {
    let task = check_of_w(rt.alloc())?;
    assert!(rt; is_output_fault(&rt, &task, &mut Failing));
    assert!(rt; is_output_fault(&rt, &task, &mut Unflushed));
    Ok(())
}

/// The replay of `w.def` over `w.lef` whose text is exported to `new.def`.
fn exporting_replay<'a>(alloc: Global) -> Result<Task<'a>, AllocError> {
    Ok(Task::Replay {
        def: "w.def",
        lefs: only_lef(alloc)?,
        state: None,
        slots: Slots::standard(),
        journal: None,
        lines: 1_000_000,
        save: None,
        export: Some("new.def"),
    })
}

/// Lines that commit the three cells of A.
const COMMITTED: &str =
    "open A\nplace A 0 a1 0 0 N\nplace A 0 a2 400 0 N\nplace A 0 a3 800 0 N\ncommit A 0\n";

/// Returns whether the replay of these lines that exports to `new.def` writes these replies, and
/// exports this text.
fn exports_text(
    rt: &HostRuntime,
    lines: &str,
    replies: &str,
    text: &[u8],
) -> Result<bool, AllocError> {
    let task = exporting_replay(rt.alloc())?;
    let mut exports = Kept::at(rt.alloc(), Some("new.def"));
    let mut reader = lines.as_bytes();
    let run = exporting(rt, &files_of(DEMO_DEF), &mut exports, &task, &mut reader);
    Ok(run.is_put(0, replies, "") && exports.holds(text))
}

#[test]
fn what_is_committed_is_exported(rt: HostRuntime) -> Result<(), Fail> {
    let entries: [&[u8]; 3] = [
        b"- a1 INV + SOURCE DIST + PLACED ( 0 0 ) N ;",
        b"- a2 INV + PLACED ( 400 0 ) N ;",
        b"- a3 DBL + WEIGHT 3 + PLACED ( 800 0 ) N ;",
    ];
    let text = with_entries(rt.alloc(), entries.as_slice())?;
    let replies = "ok 0 0\nok 1\nok 2\nok 3\nok 4\n";
    assert!(rt; exports_text(&rt, COMMITTED, replies, &text)?);
    Ok(())
}

#[test]
fn what_works_alone_is_not_exported(rt: HostRuntime) -> Result<(), Fail> {
    let lines = "open A\nplace A 0 a1 0 0 N\nbye\nplace A 0 a2 400 0 N\n";
    assert!(rt; exports_text(&rt, lines, "ok 0 0\nok 1\nok\n", DEMO_DEF)?);
    Ok(())
}

#[test]
fn an_export_that_cannot_be_written_is_a_fault(rt: HostRuntime) -> Result<(), Fail> {
    let task = exporting_replay(rt.alloc())?;
    let mut exports = Kept::at(rt.alloc(), Some("new.def"));
    exports.is_full = true;
    let mut reader = b"open A\n".as_slice();
    let run = exporting(&rt, &files_of(DEMO_DEF), &mut exports, &task, &mut reader);
    let fault =
        "lefence: File\nlefence: export file new.def cannot be written: permission denied\n";
    assert!(rt; run.is_put(3, "ok 0 0\n", fault));
    Ok(())
}

#[test]
fn a_path_that_takes_no_export_is_a_fault_before_the_first_line(
    rt: HostRuntime,
) -> Result<(), Fail> {
    let task = exporting_replay(rt.alloc())?;
    let run = done(&rt, &files_of(DEMO_DEF), &task, "open A\n");
    let fault =
        "lefence: File\nlefence: export file new.def cannot be written: permission denied\n";
    assert!(rt; run.is(3, "", fault));
    Ok(())
}

/// Returns whether the task over the sample, whose reader fails after the committed lines, reports
/// that and exports nothing.
fn exports_nothing(rt: &HostRuntime, task: &Task<'_>) -> bool {
    let mut exports = Kept::at(rt.alloc(), Some("new.def"));
    let mut reader = Cut {
        bytes: COMMITTED.as_bytes(),
    };
    let run = exporting(rt, &files_of(DEMO_DEF), &mut exports, task, &mut reader);
    run.end == reported(3)
        && run.faults.as_slice() == b"lefence: ReadFault\n".as_slice()
        && exports.text.is_none()
}

#[test]
fn nothing_is_exported_after_a_fault(rt: HostRuntime) -> Result<(), Fail> {
    let task = exporting_replay(rt.alloc())?;
    assert!(rt; exports_nothing(&rt, &task));
    Ok(())
}

/// The service of `w.def` over `w.lef` at this port, for one connection.
fn service<'a>(alloc: Global, port: u16) -> Result<Task<'a>, AllocError> {
    Ok(Task::Serve {
        def: "w.def",
        lefs: only_lef(alloc)?,
        state: None,
        slots: Slots::standard(),
        port,
        connections: 1,
        save: None,
        export: None,
    })
}

/// The lines that report that the program cannot listen on a port, up to its number.
const BIND: &[u8] = b"lefence: Bind\nlefence: port ";

/// Returns whether the service of the sample at this port ends with the fault that the port is in
/// use.
fn is_taken(rt: &HostRuntime, port: u16) -> Result<bool, AllocError> {
    let task = service(rt.alloc(), port)?;
    let mut exports = Kept::at(rt.alloc(), None);
    let mut services = NetListener::new(rt);
    let mut reader = b"".as_slice();
    let run = offering(
        rt,
        &files_of(DEMO_DEF),
        &mut exports,
        &mut services,
        &task,
        &mut reader,
    );
    Ok(run.end == reported(3) && run.written.is_empty() && run.faults.as_slice().starts_with(BIND))
}

/// Returns the service that is offered for the sample at port 5800, though no service can be
/// offered.
fn offered(rt: &HostRuntime) -> Result<Option<ServiceConfig>, AllocError> {
    let task = service(rt.alloc(), 5800)?;
    let mut exports = Kept::at(rt.alloc(), None);
    let mut services = Noted::new();
    let mut reader = b"".as_slice();
    let run = offering(
        rt,
        &files_of(DEMO_DEF),
        &mut exports,
        &mut services,
        &task,
        &mut reader,
    );
    let faults = "lefence: Bind\nlefence: port 5800 of 127.0.0.1 is not available: it is in use\n";
    if !run.is(3, "", faults) {
        return Ok(None);
    }
    Ok(services.offer)
}

#[test]
fn a_service_is_offered_at_a_port_of_this_machine(rt: HostRuntime) -> Result<(), Fail> {
    let wanted = ServiceConfig {
        ip: Ipv4Addr::LOCALHOST,
        port: 5800,
        connections: 1,
        limits: ServeLimits {
            lines: 1_000_000,
            reads: 4_200_000_000,
        },
    };
    assert!(rt; offered(&rt)? == Some(wanted));
    Ok(())
}

#[test]
fn a_port_that_is_taken_is_a_fault(rt: HostRuntime) -> Result<(), Fail> {
    let taken = rt.bind(SocketAddr::from((Ipv4Addr::LOCALHOST, 0)))?;
    let port = taken.local_addr()?.port();
    assert!(rt; is_taken(&rt, port)?);
    Ok(())
}

#[test]
fn a_task_is_done_over_the_files_of_a_runtime(rt: HostRuntime) {
    let mut reader = b"open A\nbye\n".as_slice();
    let mut written = Vec::new(rt.alloc());
    let mut faults = Vec::new(rt.alloc());
    let exit = perform(&rt, &Task::Demo, &mut reader, &mut written, &mut faults);
    let is_done = written.as_slice() == b"ok 0 0\nok\n".as_slice() && faults.is_empty();
    assert!(rt; exit.status == 0 && exit.is_printed && is_done);
}
