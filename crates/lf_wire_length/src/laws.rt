//! Laws on the length of nets.

ghost use Rattle.lf_wire_length.specs.Laws.{MovingAllKeepsLength, OnePinHasNoLength, OrderKeepsLength, PinNeverShortens, PointsStayInBox, TurnsCompose};
ghost use Rattle.lf_wire_length.specs.TeamNets.{TeamNetsDecide};

/// The length of a net does not change if all its points are moved alike.
pub fn moving_all_keeps_length()
    ensures { MovingAllKeepsLength }
{}

/// The length of a net does not depend on the order of its pins.
pub fn order_keeps_length()
    ensures { OrderKeepsLength }
{}

/// A net of one pin has length 0.
pub fn one_pin_has_no_length()
    ensures { OnePinHasNoLength }
{}

/// One pin more never makes a net shorter.
pub fn pin_never_shortens()
    ensures { PinNeverShortens }
{}

/// A pin within its macro lies in the box of each cell of the macro, in all eight orientations.
pub fn points_stay_in_box()
    ensures { PointsStayInBox }
{}

/// South is two quarter turns to the west and east is three. FN, FW, FS and FE are N, W, S and E,
/// flipped over the y axis.
pub fn turns_compose()
    ensures { TurnsCompose }
{}

/// If only cells of a team have other places, the wire length changes by as much as that of the
/// team's nets, which are a part of it.
pub fn team_nets_decide()
    ensures { TeamNetsDecide }
{}
