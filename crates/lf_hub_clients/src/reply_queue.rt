//! The replies that a client has not been sent yet.

ghost use Rattle.std.specs.Prelude.{◌≡◌, ◌≤◌, ◌+◌, ◌++◌, [], IfOk, IsOk, OnErr, OnOk, drop, length};
ghost use Rattle.lf_hub_clients.specs.Replies.{Unsent};

use crate::buffer::compact;
use std::alloc::{AllocError, Global};
use std::marker::Model;

/// The replies that a client has not been sent yet. Contracts see the bytes that may be sent, those
/// that are held until the next sync, and how many more bytes have room.
///
/// The first `sent` bytes were sent, and the first `released` bytes may be sent.
#[derive(Drop)]
pub struct ReplyQueue {
    bytes: Vec<u8>,
    sent: usize,
    released: usize,
}

impl Model for ReplyQueue {
    ghost use Rattle.std.specs.Prelude.{◌≤◌, ◌-◌, drop, slice_range, vec_capacity, vec_len};
    ghost use Rattle.lf_hub_clients.specs.Replies.{Unsent};

    ghost Value = { Unsent };

    ghost view = { λ q. record {
      ready = slice_range q.bytes.items q.sent q.released;
      held = drop q.released q.bytes.items;
      room = vec_capacity q.bytes - vec_len q.bytes;
    } };

    ghost invariant = { λ q. (q.sent ≤ q.released) × (q.released ≤ vec_len q.bytes) };
}

impl ReplyQueue {
    /// Makes an empty queue.
    pub fn new(alloc: Global) -> ReplyQueue
        ensures ready { result.ready ≡ [] }
        ensures held { result.held ≡ [] }
    {
        ReplyQueue {
            bytes: Vec::new(alloc),
            sent: 0,
            released: 0,
        }
    }

    /// Returns the number of bytes that the client has not been sent.
    pub fn len(&self) -> usize
        ensures { result ≡ length self.now.ready + length self.now.held }
    {
        self.bytes.len() - self.sent
    }

    /// Returns the bytes that may be sent.
    pub fn ready(&self) -> &[u8]
        ensures { result.now ≡ self.now.ready }
    {
        &self.bytes[self.sent..self.released]
    }

    /// Makes room for `count` more bytes. `Err` if an allocation fails.
    pub fn reserve(&mut self, count: usize) -> Result<(), AllocError>
        ensures ready { self.new.ready ≡ self.old.ready }
        ensures held { self.new.held ≡ self.old.held }
        ensures room { OnOk result (count ≤ self.new.room) }
        ensures grows { self.old.room ≤ self.new.room }
        ensures succeeds { count ≤ self.old.room → IsOk result }
    {
        let removed = compact(&mut self.bytes, self.sent);
        self.sent -= removed;
        self.released -= removed;
        self.bytes.reserve(count)
    }

    /// Holds a reply until the next sync. `Err` if an allocation fails, which happens only if the
    /// reply has no room; then nothing changes.
    pub fn hold(&mut self, reply: &[u8]) -> Result<(), AllocError>
        ensures ready { self.new.ready ≡ self.old.ready }
        ensures ok { OnOk result (self.new.held ≡ self.old.held ++ reply.now) }
        ensures err { OnErr result (self.new.held ≡ self.old.held) }
        ensures succeeds { length reply.now ≤ self.old.room → IsOk result }
    {
        self.bytes.extend_from_slice(reply)
    }

    /// Lets everything that is held be sent.
    pub fn release(&mut self)
        ensures ready { self.new.ready ≡ self.old.ready ++ self.old.held }
        ensures held { self.new.held ≡ [] }
    {
        self.released = self.bytes.len();
    }

    /// Removes the first `count` bytes that may be sent, which were sent.
    pub fn mark_sent(&mut self, count: usize)
        requires { count ≤ length self.old.ready }
        ensures ready { self.new.ready ≡ drop count self.old.ready }
        ensures held { self.new.held ≡ self.old.held }
    {
        self.sent += count;
    }
}
