//! The clients of a hub: lines that wait, and replies that were not sent yet.
//!
//! A `Client` is one connection. It takes the bytes that come, up to 64 KiB that wait, and has the
//! lines in them. Its next line is answered by a `Floor`, for the team of the connection's socket. The
//! reply is held until the next sync, and may be sent then. No line is answered while 64 KiB of
//! replies are unread. A client that may only query cannot change the floor.
//!
//! Memory for the reply is requested before a line is answered. A line whose long reply has no room
//! is refused as out of memory; the line is then a query, so nothing is lost.
//!
//! Contracts see a `Client` as a `Connection`: its number, team, access and stage, its label, the
//! lines that wait, and the bytes of replies that may be sent or are held.
//!
//! Used by `lf_hub` and `lf_tests_hub`.
//!
//! Modules, in reading order:
//!
//! - `floor`: what a hub needs of a floor
//! - `buffer`: buffers whose bytes leave at the front
//! - `line_queue`: the lines of a client that wait
//! - `reply_queue`: the replies that a client has not been sent yet
//! - `client`: one connection
//!
//! From `crates/lf_hub/src/hub_core.rt`:
//!
//! ```
//! let outcome = client.answer(floor, takes_changes, line, reply)?;
//! Ok((outcome, client.may_answer()))
//! ```
#![tactic(auto)]

mod buffer;
mod client;
mod floor;
mod line_queue;
mod reply_queue;

pub use client::{Access, Client, Stage};
pub use floor::{Floor, Outcome, is_change};
pub use line_queue::LineQueue;
pub use reply_queue::ReplyQueue;
