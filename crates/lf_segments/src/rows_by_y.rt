//! The rows of a frame in order of y, found by binary search.

ghost use Rattle.std.specs.Prelude.{◌≡◌, ◌<◌, ◌≤◌, ◌≤ℤ◌, ◌<ℤ◌, ℕ, All, AllPairs, IfOk, IsPermutation, IsTrue, MatchOption, length, slice_index_or};
ghost use Rattle.lf_segments.specs.declared.rows_by_y.RowEntry.{RowEntry};
ghost use Rattle.lf_segments.specs.RowsByY.{BeginsUpTo, IsUpToPoint, is_up_to_point, entry, entries_from, IsLastAt, IsRowsByY, IsRunAt, IsRunBetween, PrecedesByY};

use lf_floorplan::{Frame, Row};
use std::alloc::{AllocError, Global};
use std::marker::Model;

/// A row of a frame by its lower left corner, in database units.
#[derive(Clone, Copy, Debug, PartialEq, Eq)]
pub struct RowEntry {
    pub y: i64,
    pub x: i64,
    /// The position of the row in the frame.
    pub row: usize,
}

/// The rows of a frame in order of y, and those at the same y in order of x. A contract sees the
/// list of their entries, one for each row. Only `build` allocates.
#[derive(Drop)]
pub struct RowsByY {
    entries: Vec<RowEntry>,
}

impl Model for RowsByY {
    ghost use Rattle.std.specs.Prelude.{List, AllPairs};
    ghost use Rattle.lf_segments.specs.declared.rows_by_y.RowEntry.{RowEntry};
    ghost use Rattle.lf_segments.specs.RowsByY.{PrecedesByY};

    ghost Value = { List RowEntry };

    ghost view = { λ s. s.entries.items };

    ghost invariant = { λ s. AllPairs PrecedesByY s.entries.items };
}

/// Returns the entry of a row, given its position.
fn entry_of(number: usize, row: &Row) -> RowEntry
    ensures { result ≡ entry number row.now }
{
    RowEntry {
        y: i64::from(row.y),
        x: i64::from(row.x),
        row: number,
    }
}

/// Returns the entries of the rows, in the order of the rows. `Err` if an allocation fails.
fn entries_of(alloc: Global, rows: &[Row]) -> Result<Vec<RowEntry>, AllocError>
    ensures { IfOk result (λ entries. entries.items ≡ entries_from 0 rows.now) }
{
    let mut entries = Vec::new(alloc);
    for (number, row) in rows.iter().enumerate() {
        entries.push(entry_of(number, row))?;
    }
    Ok(entries)
}

/// Sorts the entries by y, and those at the same y by x.
fn sort_by_y(entries: &mut Vec<RowEntry>)
    ensures moved { IsPermutation entries.old.items entries.new.items }
    ensures sorted { AllPairs PrecedesByY entries.new.items }
{
    entries.sort_unstable_by_key(|entry| (entry.y, entry.x));
}

/// Returns the entries of the frame's rows, in order of y. `Err` if an allocation fails.
fn rows_in_order(alloc: Global, frame: &Frame) -> Result<Vec<RowEntry>, AllocError>
    ensures { IfOk result (λ entries. IsRowsByY frame.now entries.items) }
{
    let mut entries = entries_of(alloc, frame.rows.as_slice())?;
    sort_by_y(&mut entries);
    Ok(entries)
}

/// Estimates the position of an entry with this y, as if the entries rose evenly.
fn even_place(entries: &[RowEntry], y: &i64) -> usize {
    let Some(first) = entries.first() else {
        return 0;
    };
    let last = &entries[entries.len() - 1];
    let steps = entries.len() as u64 - 1;
    let height = last.y.abs_diff(first.y).max(1);
    let above = y.abs_diff(first.y);
    above.saturating_mul(steps).div_ceil(height) as usize
}

/// Returns whether this position parts the entries: those in front of it lie below y, and the rest
/// do not. False if there are fewer entries.
fn parts_at(entries: &[RowEntry], y: &i64, at: usize) -> bool
    requires { AllPairs PrecedesByY entries.now }
    ensures within { IsTrue result → at ≤ length entries.now }
    ensures below { IsTrue result → (k : ℕ) → (d : RowEntry) → k < at → (slice_index_or entries.now k d).y <ℤ y.now }
    ensures rest { IsTrue result → (k : ℕ) → (d : RowEntry) → at ≤ k → k < length entries.now
        → y.now ≤ℤ (slice_index_or entries.now k d).y }
{
    if entries.len() < at {
        return false;
    }
    if 0 < at && *y <= entries[at - 1].y {
        return false;
    }
    at == entries.len() || *y <= entries[at].y
}

/// Returns the number of entries below y. If the rows rise evenly, one probe finds it; otherwise a
/// binary search does.
fn count_below(entries: &[RowEntry], y: &i64) -> usize
    requires { AllPairs PrecedesByY entries.now }
    ensures within { result ≤ length entries.now }
    ensures below { (k : ℕ) → (d : RowEntry) → k < result → (slice_index_or entries.now k d).y <ℤ y.now }
    ensures rest { (k : ℕ) → (d : RowEntry) → result ≤ k → k < length entries.now
        → y.now ≤ℤ (slice_index_or entries.now k d).y }
{
    let guess = even_place(entries, y);
    if parts_at(entries, y, guess) {
        return guess;
    }
    entries.partition_point(|entry| entry.y < *y)
}

/// Returns the number of entries below y. Scans them one after another, since few are.
fn count_low(entries: &[RowEntry], y: &i64) -> usize
    requires { AllPairs PrecedesByY entries.now }
    ensures within { result ≤ length entries.now }
    ensures below { (k : ℕ) → (d : RowEntry) → k < result → (slice_index_or entries.now k d).y <ℤ y.now }
    ensures rest { (k : ℕ) → (d : RowEntry) → result ≤ k → k < length entries.now
        → y.now ≤ℤ (slice_index_or entries.now k d).y }
{
    for n in 0..entries.len() {
        if *y <= entries[n].y {
            return n;
        }
    }
    entries.len()
}

/// Returns the number of entries at y or below it. Scans them one after another.
fn count_up_to(entries: &[RowEntry], y: &i64) -> usize
    requires { AllPairs PrecedesByY entries.now }
    ensures within { result ≤ length entries.now }
    ensures up_to { (k : ℕ) → (d : RowEntry) → k < result → (slice_index_or entries.now k d).y ≤ℤ y.now }
    ensures rest { (k : ℕ) → (d : RowEntry) → result ≤ k → k < length entries.now
        → y.now <ℤ (slice_index_or entries.now k d).y }
{
    for n in 0..entries.len() {
        if *y < entries[n].y {
            return n;
        }
    }
    entries.len()
}

/// Returns the entries at this y.
fn run_at<'a>(entries: &'a [RowEntry], y: &i64) -> &'a [RowEntry]
    requires { AllPairs PrecedesByY entries.now }
    ensures { IsRunAt entries.now y.now result.now }
{
    let rest = &entries[count_below(entries, y)..];
    &rest[..count_up_to(rest, y)]
}

/// Returns the entries from one y on and below another.
fn run_between<'a>(entries: &'a [RowEntry], from: &i64, to: &i64) -> &'a [RowEntry]
    requires { AllPairs PrecedesByY entries.now }
    ensures { IsRunBetween entries.now from.now to.now result.now }
{
    let rest = &entries[count_below(entries, from)..];
    &rest[..count_low(rest, to)]
}

/// Returns whether the row lies below y, or lies at y and does not begin right of x.
fn comes_by(entry: &RowEntry, y: &i64, x: &i64) -> bool
    ensures { result ≡ is_up_to_point y.now x.now entry.now }
{
    if entry.y < *y {
        return true;
    }
    if *y < entry.y {
        return false;
    }
    entry.x <= *x
}

/// Estimates the number of rows that lie below y, or lie at y and do not begin right of x, as if
/// the entries rose evenly and no two rows lay at the same y.
fn even_count(entries: &[RowEntry], y: &i64, x: &i64) -> usize {
    let place = even_place(entries, y);
    let Some(entry) = entries.get(place) else {
        return place;
    };
    if comes_by(entry, y, x) {
        return place.saturating_add(1);
    }
    place
}

/// Returns whether each entry in front of this position lies below y, or lies at y and does not
/// begin right of x. Looks at the last of them. False if there are fewer entries.
fn front_comes_by(entries: &[RowEntry], y: &i64, x: &i64, at: usize) -> bool
    requires { AllPairs PrecedesByY entries.now }
    ensures within { IsTrue result → at ≤ length entries.now }
    ensures by { IsTrue result → (k : ℕ) → (d : RowEntry) → k < at
        → IsUpToPoint y.now x.now (slice_index_or entries.now k d) }
{
    if at == 0 {
        return true;
    }
    if entries.len() < at {
        return false;
    }
    comes_by(&entries[at - 1], y, x)
}

/// Returns whether no entry from this position on lies below y, or lies at y and does not begin
/// right of x. Looks at the first of them.
fn rest_comes_after(entries: &[RowEntry], y: &i64, x: &i64, at: usize) -> bool
    requires { AllPairs PrecedesByY entries.now }
    ensures { IsTrue result → (k : ℕ) → (d : RowEntry) → at ≤ k → k < length entries.now
        → IsUpToPoint y.now x.now (slice_index_or entries.now k d) → ⊥ }
{
    if entries.len() <= at {
        return true;
    }
    if comes_by(&entries[at], y, x) {
        return false;
    }
    true
}

/// Returns the number of rows that lie below y, or lie at y and do not begin right of x. If the
/// rows rise evenly, one probe finds it; otherwise a binary search does.
fn count_by(entries: &[RowEntry], y: &i64, x: &i64) -> usize
    requires { AllPairs PrecedesByY entries.now }
    ensures within { result ≤ length entries.now }
    ensures by { (k : ℕ) → (d : RowEntry) → k < result → IsUpToPoint y.now x.now (slice_index_or entries.now k d) }
    ensures rest { (k : ℕ) → (d : RowEntry) → result ≤ k → k < length entries.now
        → IsUpToPoint y.now x.now (slice_index_or entries.now k d) → ⊥ }
{
    let guess = even_count(entries, y, x);
    if front_comes_by(entries, y, x, guess) && rest_comes_after(entries, y, x, guess) {
        return guess;
    }
    entries.partition_point(|entry| comes_by(entry, y, x))
}

/// Returns the last of the rows at y that do not begin right of x. `None` if there is no such row.
fn last_at<'a>(entries: &'a [RowEntry], y: &i64, x: &i64) -> Option<&'a RowEntry>
    requires { AllPairs PrecedesByY entries.now }
    ensures { MatchOption result (All (λ e. BeginsUpTo y.now x.now e → ⊥) entries.now)
        (λ e. IsLastAt entries.now y.now x.now e.now) }
{
    let count = count_by(entries, y, x);
    if count == 0 {
        return None;
    }
    let last = &entries[count - 1];
    if last.y < *y {
        return None;
    }
    Some(last)
}

impl RowsByY {
    /// Returns the table of the frame's rows. `Err` if an allocation fails.
    pub fn build(alloc: Global, frame: &Frame) -> Result<Self, AllocError>
        ensures { IfOk result (λ rows. IsRowsByY frame.now rows) }
    {
        let entries = rows_in_order(alloc, frame)?;
        Ok(RowsByY { entries })
    }

    /// Returns the entries of the rows at this y, in order of x, a run of the list. Found by binary
    /// search.
    pub fn at(&self, y: i64) -> &[RowEntry]
        ensures { IsRunAt self.now y result.now }
    {
        run_at(&self.entries, &y)
    }

    /// Returns the entries of the rows from one y on and below another, a run of the list. They are
    /// in order of y and then of x. Found by binary search.
    pub fn between(&self, from: i64, to: i64) -> &[RowEntry]
        ensures { IsRunBetween self.now from to result.now }
    {
        run_between(&self.entries, &from, &to)
    }

    /// Returns, among the rows at this y that do not begin right of x, the one farthest right.
    /// `None` iff there is no such row. Found by binary search.
    pub fn last_at(&self, y: &i64, x: &i64) -> Option<&RowEntry>
        ensures { MatchOption result (All (λ e. BeginsUpTo y.now x.now e → ⊥) self.now)
            (λ e. IsLastAt self.now y.now x.now e.now) }
    {
        last_at(&self.entries, y, x)
    }
}
