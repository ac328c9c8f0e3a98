//! Boards with shorter wires: exchanges, insertions, flips, and a random board.

ghost use Rattle.std.specs.Prelude.{◌<◌};

use lf_improve_strategy::{
    BinBox, Bins, BoardNets, BoardPin, BoardPoint, CellPlace, ImprovableCell, ImproveOptions,
    ImproveSearch, Orientations, OrientedOffsets, RowOrientations, improved_places,
};
use lf_repair_planner::{FreeRows, FreeSpan, PlannerRow, RowKind};
use std::alloc::{AllocError, Global};
use std::test::Fail;

/// A board, and its pins as the tests read them: of each net the position of the first one.
#[derive(Drop)]
struct Sample {
    rows: FreeRows,
    cells: Vec<ImprovableCell>,
    nets: BoardNets,
    starts: Vec<usize>,
    pins: Vec<BoardPin>,
}

/// Returns offsets of a pin that is `x` half database units from the left edge of a cell that is 40
/// of them wide.
fn offsets_at(x: u8) -> OrientedOffsets {
    let left = BoardPoint { x: x as i32, y: 0 };
    let right = BoardPoint {
        x: 40 - x as i32,
        y: 0,
    };
    OrientedOffsets {
        n: left,
        s: right,
        fn_: right,
        fs: left,
    }
}

/// Returns a board without rows, cells and nets. Pins are at the left edge of a cell.
fn empty(alloc: Global) -> Result<Sample, AllocError> {
    let mut nets = BoardNets::new(alloc);
    let _number = nets.push_offsets(offsets_at(0))?;
    Ok(Sample {
        rows: FreeRows::new(alloc),
        cells: Vec::new(alloc),
        nets,
        starts: Vec::new(alloc),
        pins: Vec::new(alloc),
    })
}

/// Returns the orientations that a cell may have: N and FN in rows of N, and S and FS in those of
/// FS.
fn orientations() -> RowOrientations {
    let none = Orientations {
        n: false,
        s: false,
        fn_: false,
        fs: false,
    };
    RowOrientations {
        in_n: Orientations {
            n: true,
            fn_: true,
            ..none
        },
        in_s: none,
        in_fn: none,
        in_fs: Orientations {
            s: true,
            fs: true,
            ..none
        },
    }
}

impl Sample {
    /// Adds a row with one span of sites, 10 database units apart.
    fn push_row(&mut self, y: i32, kind: RowKind, x: i32, count: u32) -> Result<(), AllocError> {
        let first = self.rows.spans.len();
        self.rows.spans.push(FreeSpan {
            first: x,
            step: 10,
            count,
        })?;
        self.rows.rows.push(PlannerRow {
            y,
            kind,
            first,
            last: self.rows.spans.len(),
        })?;
        Ok(())
    }

    /// Adds a cell.
    fn push_cell(
        &mut self,
        x: i32,
        y: i32,
        orientation: RowKind,
        width: u32,
    ) -> Result<(), AllocError> {
        self.cells.push(ImprovableCell {
            place: CellPlace { x, y, orientation },
            width,
            orientations: orientations(),
        })?;
        Ok(())
    }

    /// Adds a net with these pins.
    fn push_net(&mut self, pins: &[BoardPin]) -> Result<(), AllocError> {
        self.starts.push(self.pins.len())?;
        self.nets.push_net()?;
        for pin in pins {
            self.pins.push(*pin)?;
            self.nets.push_pin(*pin)?;
        }
        Ok(())
    }

    /// Adds a net from a cell to a point in database units.
    fn push_wire(&mut self, cell: u32, x: u16, y: u16) -> Result<(), AllocError> {
        let at = BoardPoint {
            x: 2 * x as i32,
            y: 2 * y as i32,
        };
        let offsets = 0;
        self.push_net(&[BoardPin::OfCell { cell, offsets }, BoardPin::Fixed(at)])
    }

    /// Improves the board by four rounds.
    fn improved(
        &self,
        alloc: Global,
        within: Option<u64>,
    ) -> Result<Vec<Option<CellPlace>>, AllocError> {
        self.improved_by(alloc, within, 0, None)
    }

    /// Improves the board by four rounds, and then by this number of random moves of each cell.
    fn improved_by(
        &self,
        alloc: Global,
        within: Option<u64>,
        moves: u32,
        bins: Option<Bins>,
    ) -> Result<Vec<Option<CellPlace>>, AllocError> {
        let options = ImproveOptions { rounds: 4, within };
        let search = ImproveSearch {
            moves,
            density: None,
        };
        improved_places(
            alloc,
            &self.rows,
            self.cells.as_slice(),
            &self.nets,
            &options,
            &search,
            bins,
        )
    }

    /// Returns the place of a cell, where `places` has those that changed.
    fn place_of(&self, places: &[Option<CellPlace>], cell: u32) -> CellPlace {
        let none = CellPlace {
            x: 0,
            y: 0,
            orientation: RowKind::N,
        };
        match (self.cells.get(cell as usize), places.get(cell as usize)) {
            (Some(_), Some(Some(place))) => *place,
            (Some(given), _) => given.place,
            _ => none,
        }
    }

    /// Returns the point of a pin whose offsets are those at the left edge.
    fn point_of(&self, places: &[Option<CellPlace>], pin: &BoardPin) -> (i64, i64) {
        match pin {
            BoardPin::Fixed(at) => (at.x as i64, at.y as i64),
            BoardPin::OfCell { cell, .. } => {
                let place = self.place_of(places, *cell);
                let is_right = matches!(place.orientation, RowKind::S | RowKind::FN);
                let offset = if is_right { 40 } else { 0 };
                (2 * place.x as i64 + offset, 2 * place.y as i64)
            }
        }
    }

    /// Returns the wire length in half database units, where `places` has the places that changed.
    fn length(&self, places: &[Option<CellPlace>]) -> i64 {
        let mut sum: i64 = 0;
        for (net, first) in self.starts.iter().enumerate() {
            let next = self.starts.get(net.saturating_add(1)).copied();
            let last = next.unwrap_or(self.pins.len());
            let (mut low, mut high) = ((i64::MAX, i64::MAX), (i64::MIN, i64::MIN));
            for pin in self.pins.get(*first..last).unwrap_or(&[]) {
                let (x, y) = self.point_of(places, pin);
                low = (low.0.min(x), low.1.min(y));
                high = (high.0.max(x), high.1.max(y));
            }
            sum = sum.saturating_add(high.0.saturating_sub(low.0));
            sum = sum.saturating_add(high.1.saturating_sub(low.1));
        }
        sum
    }
}

/// Returns a board with two full rows of one cell each. Each cell has its wire in the other's row.
fn crossed(alloc: Global) -> Result<Sample, AllocError> {
    let mut sample = empty(alloc)?;
    sample.push_row(0, RowKind::N, 0, 2)?;
    sample.push_row(100, RowKind::FS, 0, 2)?;
    sample.push_cell(0, 0, RowKind::N, 20)?;
    sample.push_cell(0, 100, RowKind::FS, 20)?;
    sample.push_wire(0, 0, 100)?;
    sample.push_wire(1, 0, 0)?;
    Ok(sample)
}

/// Two cells exchange their places, and take the orientations of the rows.
#[test]
fn exchanges_shorten_wires(rt: HostRuntime) -> Result<(), Fail> {
    let sample = crossed(rt.alloc())?;
    let places = sample.improved(rt.alloc(), None)?;
    let upper = CellPlace {
        x: 0,
        y: 100,
        orientation: RowKind::FS,
    };
    let lower = CellPlace {
        x: 0,
        y: 0,
        orientation: RowKind::N,
    };
    assert!(rt; places.as_slice() == [Some(upper), Some(lower)].as_slice());
    assert!(rt; sample.length(&[]) == 400);
    assert!(rt; sample.length(places.as_slice()) == 0);
    Ok(())
}

/// No cell moves farther than the greatest distance.
#[test]
fn distances_are_limited(rt: HostRuntime) -> Result<(), Fail> {
    let sample = crossed(rt.alloc())?;
    let near = sample.improved(rt.alloc(), Some(99))?;
    assert!(rt; near.as_slice() == [None, None].as_slice());
    let far = sample.improved(rt.alloc(), Some(100))?;
    assert!(rt; sample.length(far.as_slice()) == 0);
    Ok(())
}

/// A cell is inserted between two others, and the right one is pushed to the right.
#[test]
fn insertions_push_cells(rt: HostRuntime) -> Result<(), Fail> {
    let mut sample = empty(rt.alloc())?;
    sample.push_row(0, RowKind::N, 0, 6)?;
    sample.push_row(100, RowKind::FS, 20, 2)?;
    sample.push_cell(0, 0, RowKind::N, 20)?;
    sample.push_cell(20, 0, RowKind::N, 20)?;
    sample.push_cell(20, 100, RowKind::FS, 20)?;
    for _ in 0..3 {
        sample.push_wire(0, 0, 0)?;
        sample.push_wire(2, 20, 0)?;
    }
    sample.push_wire(1, 20, 0)?;
    let places = sample.improved(rt.alloc(), None)?;
    let right = CellPlace {
        x: 40,
        y: 0,
        orientation: RowKind::N,
    };
    let between = CellPlace {
        x: 20,
        y: 0,
        orientation: RowKind::N,
    };
    assert!(rt; places.as_slice() == [None, Some(right), Some(between)].as_slice());
    Ok(())
}

/// A cell without room to move is flipped.
#[test]
fn flips_shorten_wires(rt: HostRuntime) -> Result<(), Fail> {
    let mut sample = empty(rt.alloc())?;
    sample.push_row(0, RowKind::N, 0, 2)?;
    sample.push_cell(0, 0, RowKind::N, 20)?;
    sample.push_wire(0, 50, 0)?;
    let places = sample.improved(rt.alloc(), None)?;
    let flipped = CellPlace {
        x: 0,
        y: 0,
        orientation: RowKind::FN,
    };
    assert!(rt; places.as_slice() == [Some(flipped)].as_slice());
    Ok(())
}

/// Without nets, no cell moves.
#[test]
fn cells_without_nets_stay(rt: HostRuntime) -> Result<(), Fail> {
    let mut sample = empty(rt.alloc())?;
    sample.push_row(0, RowKind::N, 0, 9)?;
    sample.push_cell(0, 0, RowKind::N, 20)?;
    sample.push_cell(50, 0, RowKind::N, 20)?;
    let places = sample.improved(rt.alloc(), None)?;
    assert!(rt; places.as_slice() == [None, None].as_slice());
    Ok(())
}

/// Returns the next one of a sequence of scattered numbers, below a limit.
fn next_below(state: &mut u32, limit: u16) -> u32
    ensures { result < 65536 }
{
    *state = state.wrapping_mul(1_664_525).wrapping_add(1_013_904_223);
    (*state / 65536) % limit.max(1) as u32
}

/// Returns the kind of a row: N, and FS for each second one.
fn kind_of_row(row: u8) -> RowKind {
    if row % 2 == 0 {
        RowKind::N
    } else {
        RowKind::FS
    }
}

/// Returns a board of ten rows with 20 cells each, gaps between them, and nets of random cells.
fn scattered(alloc: Global) -> Result<Sample, AllocError> {
    let mut sample = empty(alloc)?;
    let mut state = 7;
    for row in 0..10u8 {
        let y = row as i32 * 100;
        let kind = kind_of_row(row);
        sample.push_row(y, kind, 0, 100)?;
        for cell in 0..20u8 {
            let x = cell as i32 * 50 + next_below(&mut state, 3) as i32 * 10;
            sample.push_cell(x, y, kind, 30)?;
        }
    }
    for _ in 0..250 {
        let mut pins = Vec::new(alloc);
        for _ in 0..next_below(&mut state, 3).saturating_add(2) {
            let cell = next_below(&mut state, 200);
            pins.push(BoardPin::OfCell { cell, offsets: 0 })?;
        }
        sample.push_net(pins.as_slice())?;
    }
    Ok(sample)
}

/// Returns whether all cells are on sites of a row, in its orientations, and apart.
fn are_apart(alloc: Global, sample: &Sample, places: &[Option<CellPlace>]) -> Result<bool, Fail> {
    let mut taken = vec![in alloc; false; 1000]?;
    for cell in 0..200u32 {
        let place = sample.place_of(places, cell);
        let is_upper = place.y % 200 != 0;
        let is_turned = matches!(place.orientation, RowKind::S | RowKind::FS);
        if place.x % 10 != 0 || place.y % 100 != 0 || is_upper != is_turned {
            return Ok(false);
        }
        if place.x < 0 || 970 < place.x || place.y < 0 || 900 < place.y {
            return Ok(false);
        }
        let first = (place.y as usize) + (place.x as usize) / 10;
        for site in first..first + 3 {
            if taken[site] {
                return Ok(false);
            }
            taken[site] = true;
        }
    }
    Ok(true)
}

/// On a random board, cells stay apart, and the wires are shorter by more than a third.
#[test]
fn random_boards_are_improved(rt: HostRuntime) -> Result<(), Fail> {
    let sample = scattered(rt.alloc())?;
    assert!(rt; are_apart(rt.alloc(), &sample, &[])?);
    let before = sample.length(&[]);
    let places = sample.improved(rt.alloc(), None)?;
    let after = sample.length(places.as_slice());
    assert!(rt; are_apart(rt.alloc(), &sample, places.as_slice())?);
    assert!(rt; after.saturating_mul(3) < before.saturating_mul(2));
    Ok(())
}

/// Random moves after the rounds shorten the wires further, and cells stay apart.
#[test]
fn annealing_shortens_wires(rt: HostRuntime) -> Result<(), Fail> {
    let sample = scattered(rt.alloc())?;
    let first = sample.improved(rt.alloc(), None)?;
    let places = sample.improved_by(rt.alloc(), None, 20, None)?;
    let before = sample.length(first.as_slice());
    let after = sample.length(places.as_slice());
    assert!(rt; are_apart(rt.alloc(), &sample, places.as_slice())?);
    assert!(rt; after < before);
    Ok(())
}

/// Returns the box from one corner to another.
fn box_between(x1: i64, y1: i64, x2: i64, y2: i64) -> BinBox {
    BinBox { x1, y1, x2, y2 }
}

/// Returns the width of all cells that are in the left half of the lower five rows.
fn width_in_corner(sample: &Sample, places: &[Option<CellPlace>]) -> i64 {
    let mut sum: i64 = 0;
    for cell in 0..200u32 {
        let place = sample.place_of(places, cell);
        if place.y < 500 {
            let x = place.x as i64;
            sum = sum.saturating_add(500i64.saturating_sub(x).clamp(0, 30));
        }
    }
    sum
}

/// A bin that has no room left gets no fuller.
#[test]
fn full_bins_get_no_fuller(rt: HostRuntime) -> Result<(), Fail> {
    let sample = scattered(rt.alloc())?;
    let mut bins = Bins::new(rt.alloc(), &box_between(0, 0, 1000, 1000), 500)?;
    bins.add(&box_between(500, 0, 1000, 1000), 1000);
    bins.add(&box_between(0, 500, 500, 1000), 1000);
    let places = sample.improved_by(rt.alloc(), None, 4, Some(bins))?;
    let before = width_in_corner(&sample, &[]);
    assert!(rt; sample.length(places.as_slice()) < sample.length(&[]));
    assert!(rt; width_in_corner(&sample, places.as_slice()) <= before);
    Ok(())
}
