//! The free spans of a team's rows, in sites.

ghost use Rattle.std.specs.Prelude.{◌<ℤ◌, pos};

use crate::plan::PlannedSite;
use crate::search::clipped;
use crate::search_limits::number_of;
use std::alloc::Global;

/// The orientation of a row.
#[derive(Clone, Copy, Debug, PartialEq, Eq)]
pub enum RowKind {
    N,
    S,
    FN,
    FS,
}

/// The kinds of rows on which a cell may be placed.
#[derive(Clone, Copy)]
pub struct RowKinds {
    pub n: bool,
    pub s: bool,
    pub fn_: bool,
    pub fs: bool,
}

impl RowKinds {
    /// Whether a row of this kind is one of them.
    pub(crate) fn has(&self, kind: RowKind) -> bool {
        match kind {
            RowKind::N => self.n,
            RowKind::S => self.s,
            RowKind::FN => self.fn_,
            RowKind::FS => self.fs,
        }
    }
}

/// A free span of a row: the x of its first site and the distance of its sites, in database units,
/// and their number.
#[derive(Clone, Copy)]
pub struct FreeSpan {
    pub first: i32,
    pub step: u32,
    pub count: u32,
}

impl FreeSpan {
    /// The distance of neighboring sites, at least 1.
    pub(crate) fn pitch(&self) -> i64
        ensures some { pos 0 <ℤ result }
        ensures short { result <ℤ pos 4294967296 }
    {
        self.step.max(1) as i64
    }

    /// The x at which the last site ends.
    pub(crate) fn end(&self) -> i64 {
        (self.first as i64).saturating_add(self.pitch().saturating_mul(self.count as i64))
    }
}

/// A row with the positions of its spans in the list of all spans, from `first` on and below
/// `last`.
#[derive(Clone, Copy)]
pub struct PlannerRow {
    pub y: i32,
    pub kind: RowKind,
    pub first: usize,
    pub last: usize,
}

/// Rows by rising y, and the free spans of all of them. Those of a row are ordered from left to
/// right.
#[derive(Drop)]
pub struct FreeRows {
    pub rows: Vec<PlannerRow>,
    pub spans: Vec<FreeSpan>,
}

impl FreeRows {
    /// No rows, which allocates nothing.
    pub fn new(alloc: Global) -> FreeRows {
        FreeRows {
            rows: Vec::new(alloc),
            spans: Vec::new(alloc),
        }
    }

    /// The position of the span of a row at this y that contains an x. `None` if there is none.
    pub(crate) fn span_at(&self, x: i64, y: i64) -> Option<usize> {
        let begin = self.rows.partition_point(|row| (row.y as i64) < y);
        for row in self.rows.get(begin..)? {
            if row.y as i64 != y {
                return None;
            }
            let spans = self.spans.get(row.first..row.last)?;
            let within = spans.partition_point(|span| span.end() <= x);
            if let Some(span) = spans.get(within) {
                if span.first as i64 <= x {
                    return Some(row.first.saturating_add(within));
                }
            }
        }
        None
    }

    /// The site that begins at this point, in database units. `None` if no free site does.
    pub fn site_at(&self, x: i64, y: i64) -> Option<PlannedSite> {
        let position = self.span_at(x, y)?;
        let span = self.spans.get(position)?;
        let along = x.saturating_sub(span.first as i64);
        if along.rem_euclid(span.pitch()) != 0 {
            return None;
        }
        Some(PlannedSite {
            span: number_of(position),
            at: clipped(along.div_euclid(span.pitch())),
        })
    }
}
