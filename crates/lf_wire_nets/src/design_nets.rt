//! The pins and nets of a DEF text.

use crate::design_pins::DesignPin;
use crate::nets::DesignNet;
use lf_units::Sequence;

/// The pins of the design and its nets, each list in the order of the text.
#[derive(Drop)]
pub struct DesignNets<'a> {
    pub pins: Sequence<DesignPin<'a>>,
    pub nets: Sequence<DesignNet<'a>>,
    /// The number of the terms of all nets.
    pub terms: usize,
}
