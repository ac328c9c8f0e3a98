//! The lines of a client that wait.

ghost use Rattle.std.specs.Prelude.{◌≡◌, ◌<◌, ◌≤◌, ◌+◌, ◌-◌, ◌++◌, ◌∷◌, [], ℕ, List, IfOk, IfSome, OnErr, true, false, nat_lt, length, take, drop, position, vec_len, vec_capacity, min};
ghost use Rattle.lf_hub_clients.specs.Lines.{is_line_feed, line_limit, waiting_limit, waiting_size, lines_after, begun_after};
ghost use Rattle.lf_hub_clients.specs.Stored.{stored_lines, stored_begun};

use crate::buffer::compact;
use std::alloc::{AllocError, Global};
use std::marker::Model;

/// The most bytes that are kept of a line, one more than a request may have.
const LINE: usize = 4097;

/// The most bytes of a client's lines that wait.
const WAITING: usize = 65_536;

/// The lines of a client that wait, and the beginning of the next one. Contracts see the lines and
/// the beginning.
///
/// The bytes from `start` on are stored. `count` lines end in them, and `begun` bytes follow the
/// last one.
#[derive(Drop)]
pub struct LineQueue {
    bytes: Vec<u8>,
    start: usize,
    count: usize,
    begun: usize,
}

impl Model for LineQueue {
    ghost use Rattle.std.specs.Prelude.{◌≡◌, ◌≤◌, ◌-◌, [], drop, length, vec_len};
    ghost use Rattle.lf_hub_clients.specs.Lines.{Waiting, waiting_limit};
    ghost use Rattle.lf_hub_clients.specs.Stored.{stored_lines, stored_begun};

    ghost Value = { Waiting };

    ghost view = { λ q. record {
      lines = stored_lines [] (drop q.start q.bytes.items);
      begun = stored_begun [] (drop q.start q.bytes.items);
    } };

    ghost invariant = { λ q. (q.start ≤ vec_len q.bytes) × (vec_len q.bytes - q.start ≤ waiting_limit)
        × (q.count ≡ length (stored_lines [] (drop q.start q.bytes.items)))
        × (q.begun ≡ length (stored_begun [] (drop q.start q.bytes.items))) };
}

/// Returns where the first line feed is.
fn first_line_feed(bytes: &[u8]) -> Option<usize>
    ensures at { result ≡ position is_line_feed bytes.now }
    ensures below { IfSome result (λ at. at < length bytes.now) }
{
    bytes.iter().position(|byte| *byte == b'\n')
}

/// Adds a byte that there is room for.
fn add(bytes: &mut Vec<u8>, byte: u8)
    requires { vec_len bytes.old < vec_capacity bytes.old }
    ensures items { bytes.new.items ≡ bytes.old.items ++ byte ∷ [] }
    ensures len { vec_len bytes.new ≡ vec_len bytes.old + 1 }
    ensures capacity { vec_capacity bytes.old ≤ vec_capacity bytes.new }
{
    if bytes.push(byte).is_err() {
        unreachable!();
    }
}

/// Adds a byte that the client sent to the stored bytes, which have room for it. A byte above the
/// limit of a line is dropped.
fn store_byte(bytes: &mut Vec<u8>, start: usize, count: &mut usize, begun: &mut usize, byte: u8)
    requires start { start ≤ vec_len bytes.old }
    requires room { vec_len bytes.old < vec_capacity bytes.old }
    requires within { count.old ≤ vec_len bytes.old }
    requires count { count.old ≡ length (stored_lines [] (drop start bytes.old.items)) }
    requires begun { begun.old ≡ length (stored_begun [] (drop start bytes.old.items)) }
    ensures lines { (rest : List ℕ) → stored_lines [] (drop start bytes.new.items)
        ++ lines_after (stored_begun [] (drop start bytes.new.items)) rest
        ≡ stored_lines [] (drop start bytes.old.items)
        ++ lines_after (stored_begun [] (drop start bytes.old.items)) (byte ∷ rest) }
    ensures begun_line { (rest : List ℕ) → begun_after (stored_begun [] (drop start bytes.new.items)) rest
        ≡ begun_after (stored_begun [] (drop start bytes.old.items)) (byte ∷ rest) }
    ensures count { count.new ≡ length (stored_lines [] (drop start bytes.new.items)) }
    ensures begun { begun.new ≡ length (stored_begun [] (drop start bytes.new.items)) }
    ensures within { count.new ≤ vec_len bytes.new }
    ensures grows { vec_len bytes.old ≤ vec_len bytes.new }
    ensures len { vec_len bytes.new ≤ vec_len bytes.old + 1 }
    ensures capacity { vec_capacity bytes.old ≤ vec_capacity bytes.new }
{
    if byte == b'\n' {
        add(bytes, byte);
        *count += 1;
        *begun = 0;
        return;
    }
    if *begun >= LINE {
        return;
    }
    add(bytes, byte);
    *begun += 1;
}

/// Adds the bytes that the client sent to the stored bytes, which have room for them.
fn store(bytes: &mut Vec<u8>, start: usize, count: &mut usize, begun: &mut usize, piece: &[u8])
    requires start { start ≤ vec_len bytes.old }
    requires room { vec_len bytes.old + length piece.now ≤ vec_capacity bytes.old }
    requires within { count.old ≤ vec_len bytes.old }
    requires count { count.old ≡ length (stored_lines [] (drop start bytes.old.items)) }
    requires begun { begun.old ≡ length (stored_begun [] (drop start bytes.old.items)) }
    ensures lines { stored_lines [] (drop start bytes.new.items) ≡ stored_lines [] (drop start bytes.old.items)
        ++ lines_after (stored_begun [] (drop start bytes.old.items)) piece.now }
    ensures begun_line { stored_begun [] (drop start bytes.new.items)
        ≡ begun_after (stored_begun [] (drop start bytes.old.items)) piece.now }
    ensures count { count.new ≡ length (stored_lines [] (drop start bytes.new.items)) }
    ensures begun { begun.new ≡ length (stored_begun [] (drop start bytes.new.items)) }
    ensures within { count.new ≤ vec_len bytes.new }
    ensures grows { vec_len bytes.old ≤ vec_len bytes.new }
    ensures len { vec_len bytes.new ≤ vec_len bytes.old + length piece.now }
{
    for byte in piece {
        store_byte(bytes, start, count, begun, *byte);
    }
}

impl LineQueue {
    /// Makes an empty queue.
    pub fn new(alloc: Global) -> LineQueue
        ensures { result ≡ record { lines = []; begun = [] } }
    {
        LineQueue {
            bytes: Vec::new(alloc),
            start: 0,
            count: 0,
            begun: 0,
        }
    }

    /// Returns whether a line waits.
    pub fn has_line(&self) -> bool
        ensures { result ≡ nat_lt 0 (length self.now.lines) }
    {
        self.count > 0
    }

    /// Returns whether a line has begun that has not ended.
    pub fn has_begun(&self) -> bool
        ensures { result ≡ nat_lt 0 (length self.now.begun) }
    {
        self.begun > 0
    }

    /// Returns how many more bytes may come.
    pub fn room(&self) -> usize
        ensures room { result + waiting_size self.now ≡ waiting_limit }
    {
        WAITING - (self.bytes.len() - self.start)
    }

    /// Takes bytes that the client sent, up to the limit of those that wait, and returns their
    /// number. `Err` if an allocation fails; then nothing changes.
    pub fn take_in(&mut self, bytes: &[u8]) -> Result<usize, AllocError>
        ensures taken { IfOk result (λ n. n ≡ min (length bytes.now) (waiting_limit - waiting_size self.old)) }
        ensures lines { IfOk result (λ n. self.new.lines
            ≡ self.old.lines ++ lines_after self.old.begun (take n bytes.now)) }
        ensures begun { IfOk result (λ n. self.new.begun ≡ begun_after self.old.begun (take n bytes.now)) }
        ensures size { waiting_size self.new ≤ waiting_limit }
        ensures err { OnErr result (self.new ≡ self.old) }
    {
        let count = bytes.len().min(self.room());
        self.start -= compact(&mut self.bytes, self.start);
        self.bytes.reserve(count)?;
        store(
            &mut self.bytes,
            self.start,
            &mut self.count,
            &mut self.begun,
            &bytes[..count],
        );
        Ok(count)
    }

    /// Moves the next line that waits into the buffer, and returns whether there was one. `Err` if
    /// an allocation fails; then no line has left.
    pub fn take_line(&mut self, line: &mut Vec<u8>) -> Result<bool, AllocError>
        ensures taken { IfOk result (λ taken. taken ≡ true → self.old.lines ≡ line.new.items ∷ self.new.lines) }
        ensures within { IfOk result (λ taken. taken ≡ true → length line.new.items ≤ waiting_limit) }
        ensures none { IfOk result (λ taken. taken ≡ false → (self.old.lines ≡ []) × (self.new ≡ self.old)) }
        ensures begun { self.new.begun ≡ self.old.begun }
        ensures capacity { vec_capacity line.old ≤ vec_capacity line.new }
        ensures err { OnErr result (self.new ≡ self.old) }
    {
        if self.count == 0 {
            return Ok(false);
        }
        let stored = &self.bytes[self.start..];
        let Some(len) = first_line_feed(stored) else {
            unreachable!();
        };
        line.clear();
        line.extend_from_slice(&stored[..len])?;
        self.start += len + 1;
        self.count -= 1;
        Ok(true)
    }
}
