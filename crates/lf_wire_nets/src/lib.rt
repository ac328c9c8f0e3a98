//! Reads the pins of LEF macros and the nets of a DEF text, and binds the nets to the cells of a
//! loaded design.
//!
//! It reads what wires need and `lf_lef` and `lf_def` skip: the pins of macros with the least box
//! around the rectangles and polygons of their ports, and the sections PINS and NETS. What neither
//! needs is skipped as `lf_lef` and `lf_def` skip it. Lengths of LEF are in millionths of a micron,
//! coordinates of DEF in database units. Names are borrowed from the texts.
//!
//! The macros of several LEF texts are in one `LibraryPins`. A contract sees their list. It sees of
//! a `MacroPins` the macro's name and its pins, of a `MacroPin` its name and its box, of a
//! `DesignPin` its name and its point, and of a `NetTerm` the names of its component and of its
//! pin.
//!
//! A term of a net names a pin of a component, or a pin of the design. A pin of a movable cell is
//! bound to the number of the cell, and to where the pin is in its macro. A pin of a FIXED or COVER
//! component is bound to a point, and so is a pin of the design. A pin that the texts do not have
//! is unknown (`specs/Binding.antt`). Supplies are not bound. `bind_nets` returns a `Netlist` of
//! `lf_wire_length`. Contracts see the list of its nets, each with the pins that its terms denote.
//!
//! Used by `lf_task_wires` and `lf_task_improve`.
//!
//! Modules, in reading order:
//!
//! - `boxes`: the boxes of pins
//! - `shapes`: the rectangles and polygons of a port
//! - `pins`: the pins of macros
//! - `macros`: the statements of MACRO
//! - `pins_reader`: the statements of a LEF text
//! - `design_pins`: the pins of the design
//! - `net_terms`: the terms of nets
//! - `nets`: the nets
//! - `design_nets`: the pins and nets that were read so far
//! - `sections`: the sections PINS and NETS
//! - `nets_reader`: the statements of a DEF text
//! - `texts`: the texts of a design
//! - `first_names`: the positions of the first entries with each name
//! - `names`: the names of cells, components, pins and macros
//! - `offsets`: where pins are in macros
//! - `bound_terms`: the pins that terms denote
//! - `rows`: the rows of a netlist's table
//! - `binding`: the nets of a design, bound to its cells
//!
//! From `crates/lf_tests_basics/src/wire_binding.rt`:
//!
//! ```
//! let texts = DesignTexts {
//!     loaded,
//!     macros: &macros,
//!     document,
//!     nets: &nets,
//! };
//! let bound = bind_nets(alloc, &texts);
//! ```
#![tactic(auto)]

mod binding;
mod bound_terms;
mod boxes;
mod design_nets;
mod design_pins;
mod first_names;
mod macros;
mod names;
mod net_terms;
mod nets;
mod nets_reader;
mod offsets;
mod pins;
mod pins_reader;
mod rows;
mod sections;
mod shapes;
mod texts;

pub use binding::{BoundNets, bind_nets};
pub use design_nets::DesignNets;
pub use design_pins::{DesignPin, DesignPort};
pub use macros::MacroPins;
pub use net_terms::NetTerm;
pub use nets::DesignNet;
pub use nets_reader::read_nets;
pub use pins::MacroPin;
pub use pins_reader::{LibraryPins, read_pins};
pub use texts::DesignTexts;
