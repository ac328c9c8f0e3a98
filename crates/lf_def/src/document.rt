//! The contents of a DEF text.

ghost use Rattle.std.specs.Prelude.{All};
ghost use Rattle.std.proofs.Props.{props};
ghost use Rattle.lf_def.specs.Document.{IsReadFrom};
ghost use Rattle.lf_def.specs.Ranges.{IsHeader, IsRow, IsRegion, IsGroup, IsComponent, IsBlockage};

use crate::blockages::Blockage;
use crate::components::Component;
use crate::groups::Group;
use crate::header::DocumentHeader;
use crate::regions::Region;
use crate::rows::RowStatement;
use lf_units::Sequence;

/// The contents of a DEF text that concern placement, each list in the order of the text, with the
/// text itself.
///
/// Only the reader makes a document, so its fields are what its text says by the grammar.
/// Coordinates are from -2147483647 to 2147483647. Names have at most 1,024 bytes, each from 33 to
/// 126.
pub struct DefDoc<'a> {
    /// The whole text.
    pub text: &'a [u8],
    pub header: DocumentHeader,
    pub rows: Sequence<RowStatement>,
    pub regions: Sequence<Region>,
    pub groups: Sequence<Group>,
    pub components: Sequence<Component<'a>>,
    pub blockages: Sequence<Blockage>,
    pub ghost read: { IsReadFrom text.now header rows regions groups components blockages },
    pub ghost header_range: { IsHeader header } by { Prim.hlevel props },
    pub ghost rows_range: { All IsRow rows } by { Prim.hlevel props },
    pub ghost regions_range: { All IsRegion regions } by { Prim.hlevel props },
    pub ghost groups_range: { All IsGroup groups } by { Prim.hlevel props },
    pub ghost components_range: { All IsComponent components } by { Prim.hlevel props },
    pub ghost blockages_range: { All IsBlockage blockages } by { Prim.hlevel props },
}

/// Written by hand: with a derived `drop`, the proof of every function that drops a document would
/// unfold it.
impl Drop for DefDoc<'_> {
    fn drop(self) {
        let DefDoc {
            text: _,
            header: _,
            rows: _,
            regions: _,
            groups: _,
            components: _,
            blockages: _,
        } = self;
    }
}
