//! Whole batches at the start of bytes.

ghost use Rattle.std.specs.Prelude.{◌≡◌, ◌+◌, ◌*◌, ◌^◌, ◌<◌, ◌≤◌, ◌++◌, ℕ, length, drop, take, slice_index, IfOk, OnOk};
ghost use Rattle.lf_journal_text.specs.Batches.{announced, are_digits, are_zeros, batch_size, damage_kind, has_lengths, has_no_zero, has_sum, has_time};
ghost use Rattle.lf_journal_text.specs.Batches.{is_digit, is_torn, is_whole, number_at, sum_from, sum_of, whole_end, StopsAt};

use crate::damage::DamageKind;

const HEADER: usize = 38;

fn is_digit(byte: u8) -> bool
    ensures { result ≡ is_digit byte }
{
    48 <= byte && byte < 58
}

/// Returns whether so many bytes from `at` on are decimal digits.
fn are_digits(bytes: &[u8], at: usize, count: usize) -> bool
    requires { at + count ≤ length bytes.now }
    ensures { result ≡ are_digits count at bytes.now }
{
    for i in 0..count {
        if !is_digit(bytes[at + i]) {
            return false;
        }
    }
    true
}

/// Returns the number that so many digits from `at` on write.
pub(crate) fn number_at(bytes: &[u8], at: usize, count: usize) -> u64
    requires within { at + count ≤ length bytes.now }
    requires few { count ≤ 13 }
    ensures value { result ≡ number_at count at bytes.now }
    ensures small { result < 23 * 10 ^ count }
{
    let mut number = 0;
    for i in 0..count {
        number = number * 10 + u64::from(bytes[at + i].saturating_sub(48));
    }
    number
}

/// Returns the sum of the bytes behind the sum so far.
pub(crate) fn sum_from(so_far: u32, bytes: &[u8]) -> u32
    ensures { result ≡ sum_from so_far bytes.now }
{
    let mut sum = so_far;
    for byte in bytes {
        sum = ((u64::from(sum) * 256 + u64::from(*byte)) % 4_294_967_291) as u32;
    }
    sum
}

/// Returns whether none of the first bytes is zero.
fn has_no_zero(bytes: &[u8], count: usize) -> bool
    requires { count ≤ length bytes.now }
    ensures { result ≡ has_no_zero count bytes.now }
{
    for i in 0..count {
        if bytes[i] == 0 {
            return false;
        }
    }
    true
}

/// Returns whether all bytes from this one on are zero.
fn are_zeros_from(bytes: &[u8], from: usize) -> bool
    ensures { result ≡ are_zeros (drop from bytes.now) }
{
    for i in from..bytes.len() {
        if bytes[i] != 0 {
            return false;
        }
    }
    true
}

/// Returns whether both lengths are there, and the same.
#[tactic(auto, unfolding(crate::specs::Batches::has_lengths))]
fn has_lengths(bytes: &[u8]) -> bool
    requires { 38 ≤ length bytes.now }
    ensures { result ≡ has_lengths bytes.now }
{
    if !are_digits(bytes, 1, 5) {
        return false;
    }
    if bytes[6] != 32 {
        return false;
    }
    if !are_digits(bytes, 7, 5) {
        return false;
    }
    if bytes[12] != 32 {
        return false;
    }
    let length = number_at(bytes, 1, 5);
    if length != number_at(bytes, 7, 5) {
        return false;
    }
    0 < length
}

/// Returns whether the time is there.
#[tactic(auto, unfolding(crate::specs::Batches::has_time))]
fn has_time(bytes: &[u8]) -> bool
    requires { 38 ≤ length bytes.now }
    ensures { result ≡ has_time bytes.now }
{
    if !are_digits(bytes, 13, 13) {
        return false;
    }
    bytes[26] == 32
}

/// Returns whether a whole batch is at the start.
#[tactic(auto, unfolding(crate::specs::Batches::is_whole))]
fn is_whole(bytes: &[u8]) -> bool
    requires { 38 ≤ length bytes.now }
    ensures { result ≡ is_whole bytes.now }
{
    if bytes[0] == 0 {
        return false;
    }
    if !has_lengths(bytes) {
        return false;
    }
    if !has_time(bytes) {
        return false;
    }
    has_sum(bytes)
}

/// Returns the size that the header announces, with the header.
#[tactic(auto, unfolding(crate::specs::Batches::announced))]
fn announced(bytes: &[u8]) -> usize
    requires { 38 ≤ length bytes.now }
    ensures value { result ≡ announced bytes.now }
    ensures more { 38 ≤ result }
{
    HEADER + number_at(bytes, 1, 5) as usize
}

/// Returns whether the announced bytes are there, none of them zero, and have the sum.
#[tactic(auto, unfolding(crate::specs::Batches::has_sum, crate::specs::Batches::sum_of))]
fn has_sum(bytes: &[u8]) -> bool
    requires { 38 ≤ length bytes.now }
    ensures { result ≡ has_sum bytes.now }
{
    if !are_digits(bytes, 27, 10) {
        return false;
    }
    if bytes[37] != 10 {
        return false;
    }
    let size = announced(bytes);
    if bytes.len() < size {
        return false;
    }
    if !has_no_zero(bytes, size) {
        return false;
    }
    number_at(bytes, 27, 10) == u64::from(sum_from(sum_from(0, &bytes[1..27]), &bytes[38..size]))
}

/// Returns the size of the whole batch at the start, with its header. 0 if there is none.
#[tactic(auto, unfolding(crate::specs::Batches::batch_size))]
pub fn size_of_batch(bytes: &[u8]) -> usize
    ensures { result ≡ batch_size bytes.now }
{
    if bytes.len() < HEADER {
        return 0;
    }
    if is_whole(bytes) { announced(bytes) } else { 0 }
}

/// Returns how far the whole batches at the start reach.
pub fn whole_length(bytes: &[u8]) -> usize
    ensures stops { StopsAt result bytes.now }
    ensures end { result ≡ whole_end bytes.now }
{
    let mut end = 0;
    let mut size = size_of_batch(bytes);
    while size != 0 {
        end += size;
        size = size_of_batch(&bytes[end..]);
    }
    end
}

/// Returns whether what is no whole batch is torn, or the zeros ahead.
#[tactic(auto, unfolding(crate::specs::Batches::is_torn))]
pub fn is_torn(bytes: &[u8]) -> bool
    ensures { result ≡ is_torn bytes.now }
{
    if bytes.len() < HEADER {
        return true;
    }
    if !has_no_zero(bytes, HEADER) {
        return are_zeros_from(bytes, 131_072);
    }
    if !has_lengths(bytes) {
        return false;
    }
    if !has_time(bytes) {
        return false;
    }
    let size = announced(bytes);
    if bytes.len() < size {
        return true;
    }
    if has_no_zero(bytes, size) {
        return false;
    }
    are_zeros_from(bytes, size)
}

/// Returns what is wrong first where no whole batch is.
#[tactic(auto, unfolding(crate::specs::Batches::damage_kind))]
pub fn damage_kind(bytes: &[u8]) -> DamageKind
    requires { 38 ≤ length bytes.now }
    ensures { result ≡ damage_kind bytes.now }
{
    if bytes[0] == 0 {
        return DamageKind::BadGate;
    }
    if !has_lengths(bytes) {
        return DamageKind::BadLength;
    }
    if !has_time(bytes) {
        return DamageKind::BadTime;
    }
    DamageKind::BadSum
}
