//! Laws on exported texts.

ghost use Rattle.lf_write.specs.Laws.{KeptClausesSuffice, ExportReadsBack, GivenPlaceIsTaken, NothingChanges, LocationIsPlace};

use lf_def::components_rise;

/// Reading an exported text gives the original document with the given places in it, except for the
/// positions of components in the text. A component that is given another place than the document's
/// is PLACED there, or UNPLACED. Every other component is unchanged.
pub fn exports_read_back()
    ensures { ExportReadsBack }
{}

/// An export in which each listed component is at its place already is the original text, byte for
/// byte.
pub fn nothing_changes()
    ensures { NothingChanges }
{}

/// Whether a component is at a place depends only on its location. A component that is given a
/// place is there, with its name and its macro unchanged.
pub fn places_decide_locations()
    ensures is_in_place { LocationIsPlace }
    ensures given { GivenPlaceIsTaken }
{}

/// The stored clauses of a text's components are enough for its export. Places that the components
/// can be given can be written with them, and the result is the exported text.
pub fn kept_clauses_suffice()
    ensures { KeptClausesSuffice }
{
    components_rise();
}
