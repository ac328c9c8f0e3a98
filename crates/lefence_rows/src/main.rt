//! Answers worked rows, and prints what LEF and DEF texts contain.
//!
//! Worked rows are in `rows/`, each request with its reply below it. `tools/rows.py` makes `stdin`
//! and `stdout` of them, and the gate runs this program on them. A row of standard input begins
//! with a heading, which is copied. Each row begins again with the built-in design:
//!
//! ```text
//! # The heading.
//! = lef 5   SIZE 0.1905 BY 2.0 ;
//! = def 12 - B ( 3999 0 ) ( 10000 8000 ) + TYPE FENCE ;
//! = cut def 27
//! = limits 65535 1024 4000000 8 2 4000000000
//! = check
//! open A
//! ```
//!
//! In `rows/` a request has `> ` in front, as in `> open A`. The lines without a mark are the
//! program's output: `loaded` and the report below the settings, and the reply `ok 0 0` below its
//! request. The settings:
//!
//! - `lef` and `def` replace a line of the design's texts with another, or with several if `~` is
//!   between them; lines are counted after the earlier settings were applied
//! - `cut` keeps only the first lines of a text
//! - `limits` are those of rows, fences, components, sessions, undo entries and revisions
//! - `check` requests the report of the design
//! - `read` requests only what the texts contain (`print_texts`)
//! - `export` requests the exported text, which follows the replies with a `|` in front of each
//!   line
//! - `run` passes the requests as one list, not line by line
//! - `index` searches places by the index alone
//!
//! All other lines are requests, except empty lines, which separate rows. The output of a row is
//! the refusal of its design, or what its texts contain, or `loaded`, the report if requested, the
//! replies, and the exported text if requested. Each row is answered twice, with places searched by
//! index and by trying every site. Replies that differ are written too; `index` omits the second
//! search.
//!
//! If the limits are the standard ones, reports are written by `lefence check`, and a row with an
//! exported text is answered by `lefence replay` (`shipped_program`). The library's own results are
//! written too if they differ. If memory runs out, the line of that refusal replaces all remaining
//! output.
//!
//! Modules, in reading order:
//!
//! - `print_texts`: what LEF and DEF texts contain
//! - `run_requests`: replies to the requests of a row passed as one list
//! - `shipped_program`: the program itself over the texts of a row
//! - `design`: the design of a row, and its replies
//! - `row`: the lines of a row
#![tactic(auto)]

mod design;
mod print_texts;
mod row;
mod run_requests;
mod shipped_program;

use row::{Row, is_heading};
use std::io;
use std::io::{Read, Write};

/// Answers the rows of standard input, one after the other.
fn answer_rows<W: Write>(rt: &HostRuntime, writer: &mut W) -> io::Result<()> {
    let mut script = Vec::new(rt.alloc());
    rt.reader().read_to_end(&mut script)?;
    let mut row = Row::new(rt.alloc())?;
    for line in script.split(|byte| *byte == b'\n') {
        if is_heading(line) {
            row.finish(writer)?;
            row = Row::new(rt.alloc())?;
            writer.write_all(line)?;
            writer.write_all(b"\n")?;
        } else {
            row.take(line)?;
        }
    }
    row.finish(writer)
}

fn main(rt: HostRuntime) -> io::Result<()> {
    let mut writer = io::writer(&rt);
    match answer_rows(&rt, &mut writer) {
        Ok(()) => writer.flush(),
        Err(error) if error.kind() == io::ErrorKind::OutOfMemory => {
            writer.write_all(b"lefence: 24 OutOfMemory\n")?;
            writer.flush()
        }
        Err(error) => Err(error),
    }
}
