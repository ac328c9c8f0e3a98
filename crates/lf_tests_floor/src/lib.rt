//! Tests of loading, of placements, of the floor with its state texts and connections, and of
//! repairs, in what no clause says of them.
//!
//! Modules, in reading order:
//!
//! - `designs`: loading and reports
//! - `segments`: segments, and rows by y
//! - `cells`: the table of cells
//! - `strips`: strips and placements
//! - `starts`: floors of designs over the built-in LEF text
//! - `floors`: runs of requests, and DEF texts
//! - `pieces`: state texts in chunks of each size
//! - `devices`: a reader and a writer whose calls can fail
//! - `connections`: connections over readers and writers in memory
//! - `cuts`: one script, in reads of each size and with each call failing in turn
//! - `sockets`: connections over TCP to this machine
//! - `writers`: a writer that can be made to fail
//! - `lines`: the lines of requests
//! - `repairs`: repairs of one team
#![tactic(auto)]

#[cfg(test)]
mod cells;
#[cfg(test)]
mod connections;
#[cfg(test)]
mod cuts;
#[cfg(test)]
mod designs;
#[cfg(test)]
mod devices;
#[cfg(test)]
mod floors;
#[cfg(test)]
mod lines;
#[cfg(test)]
mod pieces;
#[cfg(test)]
mod repairs;
#[cfg(test)]
mod segments;
#[cfg(test)]
mod sockets;
#[cfg(test)]
mod starts;
#[cfg(test)]
mod strips;
#[cfg(test)]
mod writers;
