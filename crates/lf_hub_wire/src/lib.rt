//! The wire of a hub: the connections of its clients and of its operator.
//!
//! `Wire` is what a hub needs of sockets: waiting until something is ready, accepting, reading, writing
//! and closing. A connection is named by the number that the hub gives it. Contracts see a wire as the
//! list of its calls: who has connected to which team's socket, what came, and what was sent.
//!
//! `Sockets` is the wire of a process: unix sockets in a folder. No call waits but `wait`. A client that
//! ends at any moment, and a lack of descriptors, fail that client's calls and nothing else.
//!
//! No proof shows these points, and the theorems on a hub rest on them:
//!
//! - Each method of `Sockets` makes the call that it notes. They are to be read.
//! - The file mode of a socket decides who may connect to it.
//!
//! Used by `lf_hub_serve` and `lf_tests_hub`.
//!
//! Modules, in reading order:
//!
//! - `wire`: what a hub needs of sockets
//! - `record`: a record of calls, which only contracts see
//! - `doors`: listening sockets in a folder
//! - `streams`: connected sockets
//! - `sockets`: the wire of a process
//!
//! From `crates/lf_hub_wire/src/sockets.rt`:
//!
//! ```
//! let answer = read_from(&mut self.streams, number, buffer);
//! ```
#![tactic(auto)]

mod doors;
mod record;
mod sockets;
mod streams;
mod wire;

pub use doors::Door;
pub use record::{ACCEPTED, CAME, CLOSED, ENDED, NUMBERED, ORDERED, Record, SENT, TOLD, code_of};
pub use sockets::Sockets;
pub use wire::{Arrival, Incoming, Outgoing, Wire};
