//! The statements of a text that were read so far.

use crate::blockages::Blockage;
use crate::components::Component;
use crate::groups::Group;
use crate::header::HeaderParts;
use crate::regions::Region;
use crate::rows::RowStatement;
use lf_units::Sequence;

/// The contents of the statements that were read so far.
#[derive(Drop)]
pub struct DocParts<'a> {
    pub header: HeaderParts,
    pub rows: Sequence<RowStatement>,
    pub regions: Sequence<Region>,
    pub groups: Sequence<Group>,
    pub components: Sequence<Component<'a>>,
    pub blockages: Sequence<Blockage>,
}
