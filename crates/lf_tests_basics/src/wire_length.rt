//! Lengths of nets: points in the eight orientations, and nets over three cells.

ghost use Rattle.std.specs.Prelude.{◌≡◌, IfOk, length};
ghost use Rattle.lf_wire_length.specs.Bounds.{IsPinOffset};

use lf_floorplan::{LoadedCells, PackedPlace, Place, UnnamedCell};
use lf_orient::Orient;
use lf_units::{Point, Rect};
use lf_wire_length::{
    HalfPoint, NetCounts, Netlist, NetlistError, PinOffset, PinRow, TeamLengths, pin_middle,
    point_of_cell_pin,
};
use std::alloc::{AllocError, Global};
use std::test::Fail;

/// A macro of 1 by 2 microns at 1,000 units, and a pin from (0.1, 0.2) to (0.3, 0.5).
fn sample_pin() -> PinOffset
    ensures { IsPinOffset result }
{
    PinOffset {
        size: Point { x: 1000, y: 2000 },
        middle: HalfPoint { x: 400, y: 700 },
    }
}

#[test]
fn middles_of_boxes(rt: HostRuntime) {
    let rect = Rect {
        x1: 100_000,
        y1: 200_000,
        x2: 300_000,
        y2: 500_000,
    };
    let none = Point { x: 0, y: 0 };
    let moved = Point {
        x: 50_000,
        y: -100_000,
    };
    assert_eq!(rt;
        pin_middle(1000, &none, &rect),
        HalfPoint { x: 400, y: 700 }
    );
    assert_eq!(rt;
        pin_middle(1000, &moved, &rect),
        HalfPoint { x: 500, y: 500 }
    );
    assert_eq!(rt;
        pin_middle(2000, &none, &rect),
        HalfPoint { x: 800, y: 1400 }
    );
}

#[test]
fn middles_are_rounded_down(rt: HostRuntime) {
    let rect = Rect {
        x1: 0,
        y1: -123_456,
        x2: 123_456,
        y2: 0,
    };
    let none = Point { x: 0, y: 0 };
    assert_eq!(rt; pin_middle(100, &none, &rect), HalfPoint { x: 12, y: -13 });
}

#[test]
fn points_in_eight_orientations(rt: HostRuntime) {
    let rows = [
        (Orient::N, 420, 660),
        (Orient::S, 1620, 3260),
        (Orient::FN, 1620, 660),
        (Orient::FS, 420, 3260),
        (Orient::W, 3320, 360),
        (Orient::E, 720, 1560),
        (Orient::FW, 720, 360),
        (Orient::FE, 3320, 1560),
    ];
    for (orient, x, y) in rows {
        let place = Place::new(10, -20, orient);
        assert_eq!(rt;
            point_of_cell_pin(&place, &sample_pin()),
            HalfPoint { x, y }
        );
    }
}

/// Returns a cell of the team at this place.
fn cell_at(team: u32, place: Option<Place>) -> UnnamedCell {
    UnnamedCell {
        team,
        mac: 0,
        component: 0,
        place: PackedPlace::of(place),
    }
}

/// Returns three cells: the last one is unplaced.
fn sample_cells(alloc: Global) -> Result<LoadedCells, AllocError> {
    let mut cells = LoadedCells::new(alloc);
    cells.push(b"a", cell_at(0, Some(Place::new(10, -20, Orient::N))))?;
    cells.push(b"b", cell_at(1, Some(Place::new(100, 50, Orient::FW))))?;
    cells.push(b"c", cell_at(1, None))?;
    Ok(cells)
}

/// Returns nets over these cells: of two cells and a fixed pin, of a cell and an unplaced one, of a
/// cell and the fixed pin, and of pins that do not count.
fn sample_nets(alloc: Global) -> Result<Netlist, NetlistError>
    ensures { IfOk result (λ l. length l.nets ≡ 4) }
{
    let fixed = PinOffset {
        size: Point { x: 0, y: 0 },
        middle: HalfPoint { x: 5000, y: 100 },
    };
    let mut nets = Netlist::new(alloc);
    nets.add_row(sample_pin())?;
    nets.add_row(fixed)?;
    nets.start_net()?;
    nets.push_pin(PinRow::OfCell(0, 0))?;
    nets.push_pin(PinRow::OfCell(1, 0))?;
    nets.push_pin(PinRow::Fixed(1))?;
    nets.start_net()?;
    nets.push_pin(PinRow::OfCell(0, 0))?;
    nets.push_pin(PinRow::OfCell(2, 0))?;
    nets.start_net()?;
    nets.push_pin(PinRow::Fixed(1))?;
    nets.push_pin(PinRow::Unplaced)?;
    nets.push_pin(PinRow::OfCell(1, 0))?;
    nets.start_net()?;
    nets.push_pin(PinRow::Unknown)?;
    nets.push_pin(PinRow::Unplaced)?;
    Ok(nets)
}

#[test]
fn length_of_each_net(rt: HostRuntime) -> Result<(), Fail> {
    let cells = sample_cells(rt.alloc())?;
    let Ok(nets) = sample_nets(rt.alloc()) else {
        return Err(Fail::from("a netlist"));
    };
    assert_eq!(rt; nets.len(), 4);
    assert_eq!(rt; nets.net_length(&cells, 0), 5140);
    assert_eq!(rt; nets.net_length(&cells, 1), 0);
    assert_eq!(rt; nets.net_length(&cells, 2), 4500);
    assert_eq!(rt; nets.net_length(&cells, 3), 0);
    assert_eq!(rt; nets.wire_length(&cells), 9640);
    Ok(())
}

/// A net of two teams, one of each team, and one of none.
#[test]
fn lengths_by_team(rt: HostRuntime) -> Result<(), Fail> {
    let cells = sample_cells(rt.alloc())?;
    let Ok(nets) = sample_nets(rt.alloc()) else {
        return Err(Fail::from("a netlist"));
    };
    let lengths = nets.lengths(rt.alloc(), &cells, 2)?;
    assert_eq!(rt; (lengths.nets, lengths.length), (4, 9640));
    let counts = NetCounts {
        pins: 6,
        one_pin: 2,
        unknown: 1,
        unplaced: 3,
        fixed_nets: 1,
        crossing_nets: 1,
        crossing: 5140,
    };
    assert_eq!(rt; lengths.counts, counts);
    let teams = [lengths_with(0), lengths_with(4500)];
    assert!(rt; lengths.teams.as_slice() == teams.as_slice());
    Ok(())
}

/// Returns the lengths of a team with one net of its own, of this length, and the net of two teams.
fn lengths_with(own: u64) -> TeamLengths {
    TeamLengths {
        nets: 1,
        own,
        crossing_nets: 1,
        crossing: 5140,
    }
}
