//! The texts of a design.

use crate::design_nets::DesignNets;
use crate::pins_reader::LibraryPins;
use lf_def::DefDoc;
use lf_floorplan::Loaded;

/// A loaded design, and what its texts say of pins and nets.
#[derive(Clone, Copy)]
pub struct DesignTexts<'a, 't> {
    pub loaded: &'a Loaded,
    /// The pins of the LEF texts.
    pub macros: &'a LibraryPins<'t>,
    /// The DEF text. Its FIXED and COVER components are used.
    pub document: &'a DefDoc<'t>,
    /// The pins and the nets of the DEF text.
    pub nets: &'a DesignNets<'t>,
}
