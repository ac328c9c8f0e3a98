//! The pin density of nets.

ghost use Rattle.std.specs.Prelude.{IfOk};
ghost use Rattle.lf_wire_density.specs.PinPoints.{IsPinDensityOfNets};

use crate::pin_points::cell_pin_points;
use lf_density::{PinDensity, pin_density_of};
use lf_floorplan::Frame;
use lf_wire_length::{Netlist, PlacedCells};
use std::alloc::{AllocError, Global};

/// Returns the pin density of a design with these nets and cells: how many pins of placed cells the
/// fullest bins of the frame have. `Err` if an allocation fails.
pub fn pin_density_of_nets<P: PlacedCells>(
    alloc: Global,
    frame: &Frame,
    netlist: &Netlist,
    places: &P,
) -> Result<PinDensity, AllocError>
    ensures { IfOk result (IsPinDensityOfNets frame.now (P.place_of places.now) netlist.now.nets) }
{
    let points = cell_pin_points(alloc, netlist, places)?;
    pin_density_of(alloc, frame, points.as_slice())
}
