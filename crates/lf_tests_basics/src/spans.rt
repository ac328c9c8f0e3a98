//! Lists of spans, numbers of a grid, and where a width fits.

use lf_gaps::{GapTarget, best_in_row, nearer_in_gap, nearer_of};
use lf_units::{
    HasSpan, SiteGrid, Span, free_in, nearest_on_grid, spans_join, spans_meet, spans_minus,
};
use std::test::Fail;

#[test]
fn a_blockage_parts_a_row(rt: HostRuntime) -> Result<(), Fail> {
    let row = [Span { lo: 0, hi: 10_000 }];
    let blocked = [Span { lo: 4000, hi: 4400 }];
    let left = spans_minus(rt.alloc(), &row, &blocked)?;
    let parts = [
        Span { lo: 0, hi: 4000 },
        Span {
            lo: 4400,
            hi: 10_000,
        },
    ];
    assert!(rt; left.as_slice() == parts.as_slice());
    Ok(())
}

#[test]
fn lists_meet_where_both_are(rt: HostRuntime) -> Result<(), Fail> {
    let first = [Span { lo: 0, hi: 4000 }];
    let second = [Span { lo: 200, hi: 600 }, Span { lo: 600, hi: 5000 }];
    let overlapping_one = spans_meet(rt.alloc(), &first, &second)?;
    let both = [Span { lo: 200, hi: 600 }, Span { lo: 600, hi: 4000 }];
    assert!(rt; overlapping_one.as_slice() == both.as_slice());
    Ok(())
}

#[test]
fn touching_spans_are_joined(rt: HostRuntime) -> Result<(), Fail> {
    let spans = [
        Span { lo: 400, hi: 800 },
        Span { lo: 0, hi: 400 },
        Span { lo: 900, hi: 900 },
    ];
    let joined = spans_join(rt.alloc(), &spans)?;
    assert!(rt; joined.as_slice() == [Span { lo: 0, hi: 800 }].as_slice());
    Ok(())
}

#[test]
fn windows_show_what_is_free(rt: HostRuntime) -> Result<(), Fail> {
    let segment = Span { lo: 0, hi: 10_000 };
    let taken = [Span { lo: 400, hi: 1000 }, Span { lo: 2000, hi: 2400 }];
    let window = Span { lo: 800, hi: 3000 };
    let free = free_in(rt.alloc(), &segment, &taken, 600, &window)?;
    let shown = [Span { lo: 1000, hi: 2000 }, Span { lo: 2400, hi: 3000 }];
    assert!(rt; free.as_slice() == shown.as_slice());
    Ok(())
}

/// A cell in a row, and the span that it occupies.
#[derive(Clone, Copy)]
struct PlacedSpan {
    cell: u32,
    across: Span,
}

impl HasSpan for PlacedSpan {
    ghost span = { λ s. s.across };

    fn span(&self) -> Span {
        self.across
    }
}

#[test]
fn windows_show_what_entries_leave_free(rt: HostRuntime) -> Result<(), Fail> {
    let segment = Span { lo: 0, hi: 1000 };
    let entries = [
        PlacedSpan {
            cell: 1,
            across: Span { lo: 0, hi: 400 },
        },
        PlacedSpan {
            cell: 0,
            across: Span { lo: 600, hi: 800 },
        },
    ];
    let free = free_in(rt.alloc(), &segment, &entries, 400, &segment)?;
    let shown = [Span { lo: 400, hi: 600 }, Span { lo: 800, hi: 1000 }];
    assert!(rt; free.as_slice() == shown.as_slice());
    assert!(rt; entries[0].cell == 1 && entries[1].cell == 0);
    Ok(())
}

#[test]
fn nearest_sites_of_a_span(rt: HostRuntime) {
    let span = Span { lo: 400, hi: 4000 };
    assert_eq!(rt; nearest_on_grid(&span, 0, 200, 400, 300), Some(400));
    assert_eq!(rt; nearest_on_grid(&span, 0, 200, 400, 500), Some(400));
    assert_eq!(rt; nearest_on_grid(&span, 0, 200, 400, 3900), Some(3600));
    let narrow = Span { lo: 0, hi: 300 };
    assert_eq!(rt; nearest_on_grid(&narrow, 0, 200, 400, 300), None);
}

#[test]
fn a_width_fits_in_both_rows(rt: HostRuntime) -> Result<(), Fail> {
    let lower = Vec::from_slice(rt.alloc(), &[Span { lo: 0, hi: 1000 }])?;
    let upper = Vec::from_slice(
        rt.alloc(),
        &[Span { lo: 0, hi: 400 }, Span { lo: 400, hi: 1000 }],
    )?;
    let mut rows = Vec::new(rt.alloc());
    rows.push(lower)?;
    rows.push(upper)?;
    let sites = SiteGrid {
        origin: 0,
        step: 200,
    };
    let found = best_in_row(rt.alloc(), rows.as_slice(), &sites, 600, 0)?;
    assert_eq!(rt; found, Some(400));
    let wide = best_in_row(rt.alloc(), rows.as_slice(), &sites, 800, 0)?;
    assert_eq!(rt; wide, None);
    Ok(())
}

#[test]
fn nearest_place_in_a_gap(rt: HostRuntime) {
    let wanted = GapTarget {
        grid: SiteGrid {
            origin: 0,
            step: 200,
        },
        width: 400,
        target: 500,
    };
    let gap = Span { lo: 900, hi: 2000 };
    assert_eq!(rt; nearer_in_gap(None, &gap, &wanted), Some(1000));
    assert_eq!(rt; nearer_in_gap(Some(0), &gap, &wanted), Some(0));
    let narrow = Span { lo: 400, hi: 700 };
    assert_eq!(rt; nearer_in_gap(None, &narrow, &wanted), None);
    assert_eq!(rt; nearer_of(&Some(200), &Some(600), &500), Some(600));
}
