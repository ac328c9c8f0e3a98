//! The spans that a try has changed, to take its changes back.

use crate::packed_span::PackedSpan;
use crate::passes::PlannerInput;
use crate::plan_state::Gap;
use crate::tall::span_above;
use std::alloc::{AllocError, Global};

/// A span as it was before a try.
#[derive(Drop)]
struct OldSpan {
    span: usize,
    cells: PackedSpan,
}

/// The changed spans as they were before a try.
#[derive(Drop)]
pub(crate) struct Changes {
    alloc: Global,
    spans: Vec<OldSpan>,
}

impl Changes {
    /// No changes.
    pub(crate) fn new(alloc: Global) -> Changes {
        Changes {
            alloc,
            spans: Vec::new(alloc),
        }
    }

    /// Forgets all changes.
    pub(crate) fn clear(&mut self) {
        self.spans.clear();
    }

    /// Keeps a span before it is changed, if it is not kept yet.
    fn keep(&mut self, span: usize, segments: &[PackedSpan]) -> Result<(), AllocError> {
        for old in &self.spans {
            if old.span == span {
                return Ok(());
            }
        }
        if let Some(segment) = segments.get(span) {
            let cells = segment.copy(self.alloc)?;
            self.spans.push(OldSpan { span, cells })?;
        }
        Ok(())
    }

    /// Keeps the spans that a cell covers in this gap.
    pub(crate) fn keep_covered(
        &mut self,
        input: &PlannerInput,
        gap: &Gap,
        segments: &[PackedSpan],
    ) -> Result<(), AllocError> {
        let Some(planner_cell) = input.cells.get(gap.cell.number as usize) else {
            return Ok(());
        };
        for up in 0..planner_cell.rows {
            if let Some(covered) = span_above(input, gap, up) {
                self.keep(covered.span, segments)?;
            }
        }
        Ok(())
    }

    /// Gives the changed spans their old cells.
    pub(crate) fn take_back(&mut self, segments: &mut [PackedSpan]) {
        for old in self.spans.iter_mut() {
            if let Some(segment) = segments.get_mut(old.span) {
                std::mem::swap(segment, &mut old.cells);
            }
        }
        self.spans.clear();
    }
}
