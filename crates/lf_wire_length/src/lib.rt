//! The wire length of a design: for each net half the perimeter of the least box around its pins.
//!
//! The point of a pin is the middle of its box in the macro, turned and moved with its cell. A pin
//! of a FIXED component or of the design is at a point of its own. A pin that is unknown, or whose
//! cell is unplaced, does not count. A net is as long as the least box around its points is wide
//! and high together. The wire length is the sum over the nets (`specs/Length.antt`).
//!
//! All lengths are in half database units, since the middle of a box may lie between two database
//! units. They are exact: the sum of 16,777,216 nets fits 64 bits.
//!
//! A `Netlist` has nets whose pins name cells by number; a contract sees for each net the list of
//! its pins. The places of cells come from any `PlacedCells`.
//!
//! Used by most other crates.
//!
//! Modules, in reading order:
//!
//! - `points`: the middles of pins, turned and placed
//! - `placed`: the places of cells
//! - `pins`: the pins of nets
//! - `boxes`: the least box around points
//! - `stored`: the lists of a netlist
//! - `measure`: the length of stored nets
//! - `joined`: the teams that a net joins
//! - `team_lengths`: the lengths of nets by team
//! - `team_nets`: the nets of each team
//! - `counts`: counts of nets and of their pins
//! - `netlist`: the nets of a design
//! - `laws`: laws on the length of nets
//!
//! From `crates/lf_tests_basics/src/wire_length.rt`:
//!
//! ```
//! assert_eq!(rt; nets.net_length(&cells, 3), 0);
//! assert_eq!(rt; nets.wire_length(&cells), 9640);
//! ```
#![tactic(auto)]

mod boxes;
mod counts;
mod joined;
mod laws;
mod measure;
mod netlist;
mod pins;
mod placed;
mod points;
mod stored;
mod team_lengths;
mod team_nets;

pub use counts::NetCounts;
pub use laws::{
    moving_all_keeps_length, one_pin_has_no_length, order_keeps_length, pin_never_shortens,
    points_stay_in_box, team_nets_decide, turns_compose,
};
pub use netlist::{Netlist, NetlistError, WireLengths};
pub use pins::{NetPin, PinRow};
pub use placed::PlacedCells;
pub use points::{HalfPoint, PinOffset, pin_middle, point_of_cell_pin};
pub use team_lengths::TeamLengths;
pub use team_nets::TeamNets;
