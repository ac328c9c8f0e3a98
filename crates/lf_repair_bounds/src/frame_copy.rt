//! Copies of frames.

ghost use Rattle.std.specs.Prelude.{◌≡◌, [], All, IfOk};
ghost use Rattle.lf_floorplan.specs.Bounds.{IsDefRect};
ghost use Rattle.lf_repair_bounds.specs.Copies.{AreCopies};

use lf_floorplan::{Frame, Header, Macro, Row, Site, Team};
use lf_units::{Name, Rect, Sequence};
use std::alloc::{AllocError, Global};

fn copy_name(alloc: Global, name: &Name) -> Result<Name, AllocError>
    ensures { IfOk result (λ copy. copy ≡ name.now) }
{
    Name::from_slice(alloc, name.as_bytes())
}

fn copy_site(alloc: Global, site: &Site) -> Result<Site, AllocError>
    ensures { IfOk result (λ copy. copy ≡ site.now) }
{
    Ok(Site {
        name: copy_name(alloc, &site.name)?,
        core: site.core,
        size: site.size,
        symmetry: site.symmetry,
    })
}

fn copy_macro(alloc: Global, mac: &Macro) -> Result<Macro, AllocError>
    ensures { IfOk result (λ copy. copy ≡ mac.now) }
{
    Ok(Macro {
        name: copy_name(alloc, &mac.name)?,
        size: mac.size,
        origin: mac.origin,
        symmetry: mac.symmetry,
        rail: mac.rail,
    })
}

fn copy_macros(alloc: Global, macros: &[Macro]) -> Result<Sequence<Macro>, AllocError>
    ensures { IfOk result (λ copies. copies ≡ macros.now) }
{
    let mut copies = Sequence::new(alloc);
    for mac in macros {
        copies.push(copy_macro(alloc, mac)?)?;
    }
    Ok(copies)
}

fn copy_row(alloc: Global, row: &Row) -> Result<Row, AllocError>
    ensures { IfOk result (λ copy. copy ≡ row.now) }
{
    Ok(Row {
        name: copy_name(alloc, &row.name)?,
        x: row.x,
        y: row.y,
        orient: row.orient,
        sites: row.sites,
    })
}

fn copy_rows(alloc: Global, rows: &[Row]) -> Result<Sequence<Row>, AllocError>
    ensures { IfOk result (λ copies. copies ≡ rows.now) }
{
    let mut copies = Sequence::new(alloc);
    for row in rows {
        copies.push(copy_row(alloc, row)?)?;
    }
    Ok(copies)
}

fn copy_rects(alloc: Global, rects: &[Rect]) -> Result<Sequence<Rect>, AllocError>
    ensures { IfOk result (λ copies. copies ≡ rects.now) }
{
    Ok(Sequence::from_vec(Vec::from_slice(alloc, rects)?))
}

fn copy_fence(alloc: Global, fence: &Team) -> Result<Team, AllocError>
    ensures { IfOk result (λ copy. copy ≡ fence.now) }
{
    Ok(Team {
        name: copy_name(alloc, &fence.name)?,
        rects: copy_rects(alloc, fence.rects.as_slice())?,
    })
}

fn copy_fences(alloc: Global, fences: &[Team]) -> Result<Sequence<Team>, AllocError>
    ensures { IfOk result (λ copies. copies ≡ fences.now) }
{
    let mut copies = Sequence::new(alloc);
    for fence in fences {
        copies.push(copy_fence(alloc, fence)?)?;
    }
    Ok(copies)
}

fn copy_header(alloc: Global, header: &Header) -> Result<Header, AllocError>
    ensures { IfOk result (λ copy. copy ≡ header.now) }
{
    Ok(Header {
        version: copy_name(alloc, &header.version)?,
        divider: copy_name(alloc, &header.divider)?,
        brackets: copy_name(alloc, &header.brackets)?,
        design: copy_name(alloc, &header.design)?,
        units: header.units,
    })
}

/// A copy of the frame with a copy of these soft blockages.
fn copy_with_soft(alloc: Global, frame: &Frame, soft: &[Rect]) -> Result<Frame, AllocError>
    requires { All IsDefRect soft.now }
    ensures copies { IfOk result (λ copy. AreCopies frame.now copy) }
    ensures soft { IfOk result (λ copy. copy.soft ≡ soft.now) }
{
    Ok(Frame {
        site: copy_site(alloc, &frame.site)?,
        pitch: frame.pitch,
        rows: copy_rows(alloc, frame.rows.as_slice())?,
        teams: copy_fences(alloc, frame.teams.as_slice())?,
        obstacles: copy_rects(alloc, frame.obstacles.as_slice())?,
        soft: copy_rects(alloc, soft)?,
        macros: copy_macros(alloc, frame.macros.as_slice())?,
        header: copy_header(alloc, &frame.header)?,
        limits: frame.limits,
    })
}

/// A copy of the frame.
///
/// `Err` if an allocation fails.
pub fn clone_frame(alloc: Global, frame: &Frame) -> Result<Frame, AllocError>
    ensures { IfOk result (λ copy. AreCopies frame.now copy) }
{
    copy_with_soft(alloc, frame, frame.soft.as_slice())
}

/// A copy of the frame without soft blockages. `Err` if an allocation fails.
pub(crate) fn frame_without_soft(alloc: Global, frame: &Frame) -> Result<Frame, AllocError>
    ensures copies { IfOk result (λ copy. AreCopies frame.now copy) }
    ensures none { IfOk result (λ copy. copy.soft ≡ []) }
{
    copy_with_soft(alloc, frame, &[])
}
