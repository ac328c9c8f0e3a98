//! Pieces of rows or fences, and an upward sweep that finds whether pieces of two entries share a
//! point.

ghost use Rattle.std.specs.Prelude.{◌≡◌, ◌↔◌, ◌+◌, ◌<◌, ◌≤ℤ◌, All, AllPairs, IsTrue, IsPermutation, length, drop};
ghost use Rattle.lf_units.specs.Area.{SharesPoint};
ghost use Rattle.lf_frame.specs.Sweep.{piece_area, EndsBefore, Clash, ClashesWithNone, NoneClash, PiecesRise};

/// A rectangle of the entry with this number, in database units. A row's end may exceed 64 bits.
#[derive(Clone, Copy)]
pub struct SweepRect {
    pub entry: usize,
    pub left: i64,
    pub right: i128,
    pub bottom: i64,
    pub top: i64,
}

/// True if the first piece ends at or below the lower edge of the second.
fn is_below(first: &SweepRect, second: &SweepRect) -> bool
    ensures { IsTrue result ↔ (first.now.top ≤ℤ second.now.bottom) }
{
    first.top <= second.bottom
}

/// True if the first piece ends left of the second, or below it.
fn ends_before(first: &SweepRect, second: &SweepRect) -> bool
    ensures { IsTrue result ↔ EndsBefore first.now second.now }
{
    first.right <= i128::from(second.left) || is_below(first, second)
}

/// True if a point lies in both pieces.
fn do_pieces_meet(first: &SweepRect, second: &SweepRect) -> bool
    ensures { IsTrue result ↔ SharesPoint (piece_area first.now) (piece_area second.now) }
{
    if ends_before(first, first) {
        return false;
    }
    if ends_before(second, second) {
        return false;
    }
    if ends_before(first, second) {
        return false;
    }
    !ends_before(second, first)
}

/// True if the pieces are of different entries and share a point.
fn do_clash(first: &SweepRect, second: &SweepRect) -> bool
    ensures { IsTrue result ↔ Clash first.now second.now }
{
    if first.entry == second.entry {
        return false;
    }
    do_pieces_meet(first, second)
}

/// True if the piece clashes with no piece after it. Those pieces begin no lower. Pieces that begin
/// above its upper edge are not tested.
fn clashes_with_none(piece: &SweepRect, after_it: &[SweepRect]) -> bool
    requires { PiecesRise after_it.now }
    ensures { IsTrue result ↔ ClashesWithNone piece.now after_it.now }
{
    for other in after_it {
        if is_below(piece, other) {
            return true;
        }
        if do_clash(piece, other) {
            return false;
        }
    }
    true
}

/// Returns the pieces after this one.
fn after_it(pieces: &[SweepRect], number: usize) -> &[SweepRect]
    requires { number < length pieces.now }
    ensures { result.now ≡ drop (number + 1) pieces.now }
{
    &pieces[number + 1..]
}

/// True if no two pieces clash. No piece may begin below an earlier one.
fn none_clash_upwards(pieces: &[SweepRect]) -> bool
    requires { PiecesRise pieces.now }
    ensures { IsTrue result ↔ NoneClash pieces.now }
{
    for (number, piece) in pieces.iter().enumerate() {
        if !clashes_with_none(piece, after_it(pieces, number)) {
            return false;
        }
    }
    true
}

/// Sorts the pieces by their lower edges.
fn sort_upwards(pieces: &mut [SweepRect])
    ensures same { IsPermutation pieces.old pieces.new }
    ensures rise { PiecesRise pieces.new }
{
    pieces.sort_unstable_by_key(|piece| piece.bottom);
}

/// True if no two pieces of different entries share a point. Takes the time of a sort, and of a
/// test for each two pieces that overlap in y.
pub(crate) fn none_clash(pieces: &mut [SweepRect]) -> bool
    ensures { IsTrue result ↔ NoneClash pieces.old }
{
    sort_upwards(pieces);
    none_clash_upwards(pieces)
}
