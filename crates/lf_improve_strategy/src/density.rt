//! The bins that must not become too full: squares of five rows' height, as those of a density
//! report.

use crate::bins::{BinBox, Bins};
use lf_cells::CellId;
use lf_floorplan::Row;
use lf_orient::Orient;
use lf_placement::Placement;
use lf_segments::Strip;
use lf_units::Point;
use std::alloc::{AllocError, Global};

/// The number of rows in the height of a bin.
const ROWS: i64 = 5;

/// The box of a usable span of a row.
fn strip_box(strip: &Strip) -> BinBox {
    BinBox {
        x1: strip.area.x1,
        y1: strip.area.y1,
        x2: strip.area.x2,
        y2: strip.area.y2,
    }
}

/// The box of a row, one site high.
fn row_box(row: &Row, pitch: &Point) -> BinBox {
    let (x, y) = (row.x as i64, row.y as i64);
    BinBox {
        x1: x,
        y1: y,
        x2: x.saturating_add(pitch.x.saturating_mul(row.sites as i64)),
        y2: y.saturating_add(pitch.y),
    }
}

/// The least box around two.
fn hull(one: &BinBox, other: &BinBox) -> BinBox {
    BinBox {
        x1: one.x1.min(other.x1),
        y1: one.y1.min(other.y1),
        x2: one.x2.max(other.x2),
        y2: one.y2.max(other.y2),
    }
}

/// The box of a cell at its working place. `None` if it is unplaced.
fn working_box(placement: &Placement, id: CellId) -> Option<BinBox> {
    let frame = placement.frame();
    let place = placement.cells().working(id)?;
    let mac = frame
        .macros
        .as_slice()
        .get(placement.cells().cell(id)?.mac)?;
    let units = frame.header.units as i64;
    let wide = mac.size.x.saturating_mul(units) / 1_000_000;
    let high = mac.size.y.saturating_mul(units) / 1_000_000;
    let (wide, high) = match place.orient {
        Orient::N | Orient::S | Orient::FN | Orient::FS => (wide, high),
        _ => (high, wide),
    };
    let (x, y) = (place.x as i64, place.y as i64);
    Some(BinBox {
        x1: x,
        y1: y,
        x2: x.saturating_add(wide),
        y2: y.saturating_add(high),
    })
}

/// The bins of a design, in which placed cells may take this percentage of the usable area. `None`
/// if there is no limit. `Err` if an allocation fails.
pub(crate) fn bins_below(
    alloc: Global,
    placement: &Placement,
    percent: Option<u32>,
) -> Result<Option<Bins>, AllocError> {
    let Some(percent) = percent else {
        return Ok(None);
    };
    let frame = placement.frame();
    let Some(first) = frame.rows.as_slice().get(0) else {
        return Ok(None);
    };
    let mut around = row_box(first, &frame.pitch);
    for row in frame.rows.as_slice() {
        around = hull(&around, &row_box(row, &frame.pitch));
    }
    let side = frame.pitch.y.saturating_mul(ROWS);
    let mut bins = Bins::new(alloc, &around, side)?;
    for strip in placement.indexed_frame().index().strips() {
        bins.add(&strip_box(strip), percent as i64);
    }
    for id in placement.cells().cell_ids() {
        if let Some(taken) = working_box(placement, *id) {
            bins.add(&taken, -100);
        }
    }
    Ok(Some(bins))
}
