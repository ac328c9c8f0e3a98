//! Tests of the crates below the floor that need no floor: geometry, texts, the command line,
//! requests and replies, and wires, in what no clause says of them.
//!
//! Modules, in reading order:
//!
//! - `spans`: lists of spans, numbers of a grid, and where a width fits
//! - `packing`: cells packed into a span
//! - `units`: numbers, lengths, rectangles and lists
//! - `boxes`: boxes in a row, and those near one of them
//! - `orientations`: the tables of orientations
//! - `faults`: refusals at a line, for other modules
//! - `heaps`: heaps that refuse allocations, for other modules
//! - `tokens`: tokens and words
//! - `names`: tables of names, and patterns
//! - `sessions`: session slots of teams
//! - `undo`: undo entries if memory is refused, and at their limit
//! - `lef_texts`: prefixes of LEF texts, several texts, and a long one
//! - `def_texts`: prefixes of DEF texts, and a long one
//! - `words`: the words of the command line
//! - `requests`: requests, replies and reports
//! - `streams`: the lines of a stream
//! - `wire_length`: lengths of nets
//! - `wire_faults`: refusals at a line, for other modules
//! - `wire_pins`: pins of LEF texts in the forms of several tools
//! - `wire_nets`: pins and nets of DEF texts in the forms of several tools
//! - `wire_binding`: nets of a design, bound to its cells
//! - `improver`: boards with shorter wires
#![tactic(auto)]

#[cfg(test)]
mod boxes;
#[cfg(test)]
mod def_texts;
#[cfg(test)]
mod faults;
#[cfg(test)]
mod heaps;
#[cfg(test)]
mod improver;
#[cfg(test)]
mod lef_texts;
#[cfg(test)]
mod names;
#[cfg(test)]
mod orientations;
#[cfg(test)]
mod packing;
#[cfg(test)]
mod requests;
#[cfg(test)]
mod sessions;
#[cfg(test)]
mod spans;
#[cfg(test)]
mod streams;
#[cfg(test)]
mod tokens;
#[cfg(test)]
mod undo;
#[cfg(test)]
mod units;
#[cfg(test)]
mod wire_binding;
#[cfg(test)]
mod wire_faults;
#[cfg(test)]
mod wire_length;
#[cfg(test)]
mod wire_nets;
#[cfg(test)]
mod wire_pins;
#[cfg(test)]
mod words;
