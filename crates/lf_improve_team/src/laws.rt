//! Laws on the wire length of a floor.

ghost use Rattle.lf_improve_team.specs.FloorLengths.{WireLengthIsOne, WorkingPlacesAreOne};

/// A floor has one list of working places.
pub fn working_places_are_one()
    ensures { WorkingPlacesAreOne }
{}

/// A floor has one wire length.
pub fn wire_length_is_one()
    ensures { WireLengthIsOne }
{}
