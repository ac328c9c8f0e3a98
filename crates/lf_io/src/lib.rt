//! Devices and files: sources and sinks of bytes that know whether one of their calls has failed,
//! outputs, and files that are replaced as a whole.
//!
//! `FromRead` makes a `Source` of a reader of std, and `ToWrite` makes a `Sink` of a writer. Both
//! borrow it. A source is where bytes come from, and a sink is where they are written. Contracts
//! see the bytes that a source has still to read (`remaining`) and the number of its reads
//! (`reads`). They see the bytes that a sink holds (`contents`) and whether all are flushed
//! (`is_flushed`). Of both they see whether a call has failed (`has_failed`), and which reader or
//! writer is held (`holds`). The bytes are visible only if the reader or writer makes them known.
//!
//! An `Output` takes a text piece by piece. A contract sees of it what its implementation promises
//! by its relation `took`: the text that was written between one state and a later one.
//!
//! `OutputFiles` is the trait of what takes texts for files. Each text is a `TextSource`: it is
//! written in chunks, and need not be in memory as a whole. `FsOutputFiles` writes to a new file
//! next to the target, which takes the target's name once it is stored. A pipe or a device is
//! written to directly. If standard output is redirected to the target, the text is appended to it.
//! Contracts see the `puts` of an `OutputFiles`: the paths and texts written so far, the latest
//! first, or `None` if the implementation does not make them known. They also see whether a file
//! could not be written (`has_failed`). The `puts` of `FsOutputFiles` are unknown.
//!
//! Used by most other crates.
//!
//! Modules, in reading order:
//!
//! - `traits`: the traits of sources and sinks
//! - `sender`: sending of all bytes of a text
//! - `std_adapters`: devices over std's readers and writers
//! - `output`: outputs, which take a text piece by piece
//! - `text_source`: texts that are written in chunks
//! - `replace`: replacement of a file by a new one
//! - `output_files`: the trait of what takes texts, and its implementation for files
//!
//! From `crates/lf_tests_floor/src/connections.rt`:
//!
//! ```
//! let mut source = FromRead::new(reader);
//! let mut sink = ToWrite::new(writer);
//! serve_safely(alloc, floor, &mut source, &mut sink, limits)
//! ```
#![tactic(auto)]

mod output;
mod output_files;
mod replace;
mod sender;
mod std_adapters;
mod text_source;
mod traits;

pub use output::Output;
pub use output_files::{FsOutputFiles, OutputFiles, WriteFailure, WriteFailureKind};
pub use sender::send;
pub use std_adapters::{FromRead, ToWrite};
pub use text_source::TextSource;
pub use traits::{DeviceFault, Sink, Source};
