//! Tests of the core of a hub: what no clause says of it.
//!
//! The tests cover `lf_hub_clients`, `lf_hub_turns`, `lf_hub`, `lf_hub_wire` and `lf_hub_serve`. Their
//! floor is a counter, and their wire is a script.
//!
//! Modules, in reading order:
//!
//! - `counters`: a floor that counts, for other modules
//! - `steps`: steps of a hub, for other modules
//! - `clients`: what clients are sent, and when
//! - `turns`: whose line is next
//! - `sessions`: the sessions of clients that leave
//! - `floors`: lines on the floor of a design
//! - `wires`: a wire in memory that follows a script, for other modules
//! - `served`: a hub that is served over such a wire
//! - `sockets`: the wire of a process, over unix sockets
#![tactic(auto)]

#[cfg(test)]
mod clients;
#[cfg(test)]
mod counters;
#[cfg(test)]
mod floors;
#[cfg(test)]
mod served;
#[cfg(test)]
mod sessions;
#[cfg(test)]
mod sockets;
#[cfg(test)]
mod steps;
#[cfg(test)]
mod turns;
#[cfg(test)]
mod wires;
