//! A hub that is served: clients on a wire, a floor, and a journal.
//!
//! `serve_hub` goes on until the operator stops it or the disk fails. In each round it accepts clients,
//! reads what they have sent, answers their lines for at most four milliseconds, saves the records as one
//! batch of the journal, and sends the replies. A reply leaves only after the sync of its batch.
//!
//! The contract of `serve_hub` says of a hub that begins without a client, whatever its clients send and
//! whenever it ends:
//!
//! - Each line of a client is answered for the team of its socket, and its lines are answered in order.
//! - What a client was sent are the replies to its own lines that were answered before the last sync, in
//!   order, or the first bytes of them.
//! - The lines, one after the other, are a run of the floor.
//! - A crash leaves the records of all changes accepted before the last sync, in order, and all or none of
//!   those since.
//! - It ends because the operator has stopped it, a call of the disk has failed, records do not fit into
//!   a batch, or memory is lacking; or after 2 to the power of 64 rounds.
//!
//! A crash of the machine is read as a disk whose calls all fail from then on, as `sqlite_disk` has it.
//!
//! Nothing says that a line is ever answered. Tests show that.
//!
//! Used by `lf_tests_hub`.
//!
//! Modules, in reading order:
//!
//! - `server`: a hub over its floor and its wire, and how serving ends
//! - `arrivals`: clients that connect, and what they send
//! - `answers`: answering lines
//! - `saving`: records into the journal
//! - `leftover_sessions`: the sessions that an earlier process has left open
//! - `departures`: replies that are sent, and clients that leave
//! - `operator`: the operator's lines
//! - `serving`: the rounds of a hub
//!
//! From `crates/lf_tests_hub/src/served.rt`:
//!
//! ```
//! let ending = serve_hub(alloc, &rt, &mut server, &mut journal);
//! ```
#![tactic(auto)]

mod answers;
mod arrivals;
mod departures;
mod leftover_sessions;
mod operator;
mod saving;
mod server;
mod serving;

pub use leftover_sessions::close_sessions;
pub use saving::{time_of, write_records};
pub use server::{Ending, Failure, Server};
pub use serving::serve_hub;
