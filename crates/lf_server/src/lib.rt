//! Serves lines: one reply to each, in order, written and flushed before the next line is acted on.
//!
//! `serve` serves one connection, over any source and sink. `serve_connections` takes connections
//! from any `Acceptor` and serves each to its end before the next. `serve_tcp` does this for a TCP
//! listener. Each line is one step of the floor, or gets `BadRequest` with the floor unchanged. A
//! DEF text is written in chunks and is never in memory as a whole. The devices of `lf_io` are
//! exported again.
//!
//! `request_of_line` and `write_short_reply` are for those who answer lines without a sink.
//!
//! Contracts describe a connection by its lines, the reply to each with its text, and the floor
//! after it (`ServesLines`), if the bytes of input and output are known. How it ended determines
//! which lines were acted on (`Ending`). In all cases the frame and the positions of components are
//! unchanged, and a fully legal committed design stays fully legal (`KeepsDesign`).
//!
//! Of several connections, contracts count those accepted. They describe what each client sends and
//! receives and how each connection ends, and that no others were served (`AreServed`). This holds
//! if the acceptor makes known what it accepts.
//!
//! Used by `lf_hub_floor`, `lf_laws_slices`, `lf_task_serve` and `lf_app`.
//!
//! Modules, in reading order:
//!
//! - `line_buffer`: the buffer for the text of a line
//! - `answer`: the reply to a line, and the texts of short replies
//! - `buffered_output`: a text written to a sink in chunks
//! - `responses`: replies sent to a sink
//! - `serve_loop`: the loop that serves one connection
//! - `tcp_client`: readers and writers over streams
//! - `acceptor`: the trait of what accepts connections, and the TCP one
//! - `tcp`: connections served one after the other
//! - `laws`: laws over whole connections
//!
//! From `crates/lf_task_serve/src/serve_lines.rt`:
//!
//! ```
//! let served = serve(alloc, floor, source, sink, limits_of(lines));
//! served.ending
//! ```
#![tactic(auto)]

mod acceptor;
mod answer;
mod buffered_output;
mod laws;
mod line_buffer;
mod responses;
mod serve_loop;
mod tcp;
mod tcp_client;

pub use acceptor::{Acceptor, Connection, ServiceConfig, accept_from};
pub use answer::{request_of_line, write_short_reply};
pub use laws::{replies_are_own, replies_follow_design, serving_runs};
pub use lf_io::{DeviceFault, FromRead, Sink, Source, ToWrite, send};
pub use serve_loop::{Ending, ServeLimits, Served, serve};
pub use tcp::{TcpServed, serve_connections, serve_tcp};
pub use tcp_client::{ClientReader, ClientWriter};
