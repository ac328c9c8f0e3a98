//! Orientations of cells and rows, the symmetries that allow them, and the bottom supply rails.
//!
//! DEF has eight orientations. N, S, FN and FS are upright. W, E, FW and FE lie on their side, and
//! no cell is legal in them.
//!
//! Used by most other crates.
//!
//! From `crates/lf_repair_strategy/src/rounds.rt`:
//!
//! ```
//! is_candidate(mac.symmetry, orient) && equal_under(frame.site.symmetry, orient, row)
//! ```
#![tactic(auto)]

ghost use Rattle.std.specs.Prelude.{◌≡◌, ◌↔◌, IsTrue};
ghost use Rattle.lf_orient.specs.Orientation.{flipped_over_x, flipped_over_y, is_allowed, EqualUnder, rail_below, other_rail};
ghost use Rattle.lf_orient.specs.Words.{orient_word};

/// The eight orientations of a DEF text: north, west, south, east, and each of them flipped
/// (LEF/DEF 5.8, DEF COMPONENTS and ROW).
///
/// N, S, FN and FS are upright. W, E, FW and FE lie on their side: cells may be loaded in them, but
/// are never legal.
#[derive(Clone, Copy, Debug, PartialEq, Eq)]
pub enum Orient {
    N,
    W,
    S,
    E,
    FN,
    FW,
    FS,
    FE,
}

/// The axes over which a macro or a site may be flipped (LEF/DEF 5.8, LEF MACRO and LEF SITE,
/// SYMMETRY).
///
/// R90 is ignored: a cell that lies on its side is never legal.
#[derive(Clone, Copy, Debug, PartialEq, Eq)]
pub struct Symmetry {
    /// SYMMETRY X: may be flipped over the x axis, as N to FS.
    pub x: bool,
    /// SYMMETRY Y: may be flipped over the y axis, as N to FN.
    pub y: bool,
}

/// The supply rail along the bottom of a row or a macro: that of its ground pin (USE GROUND) or its
/// power pin (USE POWER; LEF/DEF 5.8, LEF PIN).
#[derive(Clone, Copy, Debug, PartialEq, Eq)]
pub enum Rail {
    Ground,
    Power,
}

/// Returns the word for an orientation in a DEF text and a reply (LEF/DEF 5.8, DEF COMPONENTS): its
/// own name, as `FN`.
pub fn orient_word(orient: Orient) -> &'static [u8]
    ensures { result.now ≡ orient_word orient }
{
    match orient {
        Orient::N => b"N",
        Orient::W => b"W",
        Orient::S => b"S",
        Orient::E => b"E",
        Orient::FN => b"FN",
        Orient::FW => b"FW",
        Orient::FS => b"FS",
        Orient::FE => b"FE",
    }
}

/// Returns whether a macro of this symmetry may have this orientation: N always, FS with X, FN with
/// Y, S with both; never one that lies on its side.
pub fn is_candidate(symmetry: Symmetry, orient: Orient) -> bool
    ensures { result ≡ is_allowed symmetry orient }
{
    match orient {
        Orient::N => true,
        Orient::FS => symmetry.x,
        Orient::FN => symmetry.y,
        Orient::S => symmetry.x && symmetry.y,
        _ => false,
    }
}

/// Returns the orientation flipped over the x axis. W, E, FW and FE are unchanged.
fn over_x(orient: Orient) -> Orient
    ensures { result ≡ flipped_over_x orient }
{
    match orient {
        Orient::N => Orient::FS,
        Orient::FS => Orient::N,
        Orient::FN => Orient::S,
        Orient::S => Orient::FN,
        _ => orient,
    }
}

/// Returns the orientation flipped over the y axis. W, E, FW and FE are unchanged.
fn over_y(orient: Orient) -> Orient
    ensures { result ≡ flipped_over_y orient }
{
    match orient {
        Orient::N => Orient::FN,
        Orient::FN => Orient::N,
        Orient::FS => Orient::S,
        Orient::S => Orient::FS,
        _ => orient,
    }
}

/// Returns whether the two orientations are equal under a site's symmetry, so a cell of one may be
/// in a row of the other. They are the same, or the flips that the symmetry allows turn one into
/// the other.
pub fn equal_under(symmetry: Symmetry, a: Orient, b: Orient) -> bool
    ensures { IsTrue result ↔ EqualUnder symmetry a b }
{
    a == b
        || (symmetry.x && b == over_x(a))
        || (symmetry.y && b == over_y(a))
        || (symmetry.x && symmetry.y && b == over_x(over_y(a)))
}

/// Returns the rail along the bottom of a row of this orientation: ground for N and FN, power for S
/// and FS. `None` for one that lies on its side.
pub fn row_rail(orient: Orient) -> Option<Rail>
    ensures { result ≡ rail_below orient }
{
    match orient {
        Orient::N | Orient::FN => Some(Rail::Ground),
        Orient::S | Orient::FS => Some(Rail::Power),
        _ => None,
    }
}

/// Returns the other rail. Rails alternate from row to row, and from the bottom of a row to its
/// top.
pub fn opposite(rail: Rail) -> Rail
    ensures { result ≡ other_rail rail }
{
    match rail {
        Rail::Ground => Rail::Power,
        Rail::Power => Rail::Ground,
    }
}
