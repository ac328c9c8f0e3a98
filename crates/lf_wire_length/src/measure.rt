//! The length of stored nets.

ghost use Rattle.std.specs.Prelude.{◌≡◌, ◌-◌, ◌<◌, ◌≤◌, ◌^◌, [], All, IfSome, List, None, drop, fold, length, map, min, option_map, slice_get, slice_index, slice_index_or, take};
ghost use Rattle.lf_wire_length.specs.Bounds.{IsPinOffset};
ghost use Rattle.lf_wire_length.specs.Boxes.{IsDesignBox, box_after};
ghost use Rattle.lf_wire_length.specs.Length.{length_of_net, length_of_nets};
ghost use Rattle.lf_wire_length.specs.Stored.{nets_from, pin_by_row, pin_stored, start_after};
ghost use Rattle.lf_wire_length.specs.TeamNets.{length_of_listed};
ghost use Rattle.lf_wire_length.specs.declared.points.PinOffset.{PinOffset};

use crate::boxes::{PointBox, perimeter_half, widen_by};
use crate::pins::{PackedPin, PinRow, pin_row_of, stored_point};
use crate::placed::PlacedCells;
use crate::points::PinOffset;

/// Returns the least box around the points of the pins that count. `None` if no pin counts.
#[tactic(auto, using(std::proofs::lemmas::List::Sums::fold_more))]
fn box_around<P: PlacedCells>(
    rows: &[PinOffset],
    pins: &[PackedPin],
    places: &P,
) -> Option<PointBox>
    requires { All IsPinOffset rows.now }
    ensures in_range { IfSome result IsDesignBox }
    ensures is { result ≡ fold (box_after (P.place_of places.now) rows.now) None pins.now }
{
    let mut seen = None;
    for pin in pins {
        seen = widen_by(&seen, &stored_point(rows, pin, places));
    }
    seen
}

/// Returns the length of a net with these pins.
#[tactic(auto, using(crate::proofs::BoxLemmas::box_measured))]
fn length_of_pins<P: PlacedCells>(rows: &[PinOffset], pins: &[PackedPin], places: &P) -> u64
    requires { All IsPinOffset rows.now }
    ensures bound { result ≤ 800000000000 }
    ensures is { result ≡ length_of_net (P.place_of places.now) (map (pin_stored rows.now) pins.now) }
{
    perimeter_half(&box_around(rows, pins, places))
}

/// Returns the elements from one position up to another. Empty if there is none.
fn slice_between(pins: &[PackedPin], from: usize, to: usize) -> &[PackedPin]
    ensures { result.now ≡ take (to - from) (drop from pins.now) }
{
    let end = to.min(pins.len());
    if from < end { &pins[from..end] } else { &[] }
}

/// Returns where the net after this one begins; for the last one, the number of all pins.
fn next_start(starts: &[u32], net: usize, pins: usize) -> usize
    requires { net < length starts.now }
    ensures { result ≡ start_after starts.now net pins }
{
    match starts.get(net + 1) {
        Some(start) => *start as usize,
        None => pins,
    }
}

/// Returns the pins of the net.
pub(crate) fn pins_of<'a>(starts: &[u32], pins: &'a [PackedPin], net: usize) -> &'a [PackedPin]
    requires { net < length starts.now }
    ensures { result.now ≡ take (start_after starts.now net (length pins.now) - slice_index starts.now net)
        (drop (slice_index starts.now net) pins.now) }
{
    let from = starts[net] as usize;
    let to = next_start(starts, net, pins.len());
    slice_between(pins, from, to)
}

/// Returns the pin at this position of the net. `None` if the net has fewer pins.
pub(crate) fn pin_at(starts: &[u32], pins: &[PackedPin], net: usize, at: usize) -> Option<PinRow>
    requires { net < length starts.now }
    ensures { (rows : List PinOffset) → option_map (pin_by_row rows) result
        ≡ slice_get (slice_index_or (nets_from starts.now (map (pin_stored rows) pins.now)) net []) at }
{
    match pins_of(starts, pins, net).get(at) {
        Some(pin) => Some(pin_row_of(pin)),
        None => None,
    }
}

/// Returns the length of the net.
#[tactic(auto, using(crate::proofs::StoredLemmas::net_mapped))]
pub(crate) fn length_of_stored_net<P: PlacedCells>(
    rows: &[PinOffset],
    starts: &[u32],
    pins: &[PackedPin],
    net: usize,
    places: &P,
) -> u64
    requires rows { All IsPinOffset rows.now }
    requires net { net < length starts.now }
    ensures bound { result ≤ 800000000000 }
    ensures is { result ≡ length_of_net (P.place_of places.now)
        (slice_index_or (nets_from starts.now (map (pin_stored rows.now) pins.now)) net []) }
{
    length_of_pins(rows, pins_of(starts, pins, net), places)
}

/// Returns the length of the net of this number. 0 if there is no such net.
#[tactic(auto, using(crate::proofs::StoredLemmas::nets_counted))]
fn length_if_stored<P: PlacedCells>(
    rows: &[PinOffset],
    starts: &[u32],
    pins: &[PackedPin],
    net: usize,
    places: &P,
) -> u64
    requires rows { All IsPinOffset rows.now }
    ensures { result ≡ length_of_net (P.place_of places.now)
        (slice_index_or (nets_from starts.now (map (pin_stored rows.now) pins.now)) net []) }
{
    if net < starts.len() {
        length_of_stored_net(rows, starts, pins, net, places)
    } else {
        0
    }
}

/// Returns the sum of the lengths of the nets of these numbers, or the greatest number of 64 bits if
/// that is less.
#[tactic(auto, using(std::proofs::lemmas::List::Sums::sum_by_more))]
pub(crate) fn length_of_some<P: PlacedCells>(
    rows: &[PinOffset],
    starts: &[u32],
    pins: &[PackedPin],
    nets: &[u32],
    places: &P,
) -> u64
    requires rows { All IsPinOffset rows.now }
    ensures { result ≡ min (length_of_listed (P.place_of places.now)
        (nets_from starts.now (map (pin_stored rows.now) pins.now)) nets.now) (2 ^ 64 - 1) }
{
    let mut total: u64 = 0;
    for net in nets {
        let length = length_if_stored(rows, starts, pins, *net as usize, places);
        total = total.saturating_add(length);
    }
    total
}

/// Returns the sum of the lengths of all nets.
#[tactic(auto, using(std::proofs::lemmas::List::Sums::fold_more, crate::proofs::StoredLemmas::nets_counted))]
pub(crate) fn length_of_all<P: PlacedCells>(
    rows: &[PinOffset],
    starts: &[u32],
    pins: &[PackedPin],
    places: &P,
) -> u64
    requires rows { All IsPinOffset rows.now }
    requires few_nets { length starts.now ≤ 16777216 }
    ensures { result ≡ length_of_nets (P.place_of places.now)
        (nets_from starts.now (map (pin_stored rows.now) pins.now)) }
{
    let mut total = 0;
    for net in 0..starts.len() {
        total += length_of_stored_net(rows, starts, pins, net, places);
    }
    total
}
