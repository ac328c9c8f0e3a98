//! Output of a text to a sink in chunks.

ghost use Rattle.std.specs.Prelude.{◌≡◌, ◌≤◌, ◌++◌, ℕ, List, OnErr, OnOk, false, take, true, vec_capacity};
ghost use Rattle.std.specs.Io.KnownBytes.{Appends};
ghost use Rattle.lf_server.specs.Pieces.{IsUnderWay, has_failed_since};

use crate::line_buffer::put;
use crate::responses::send_both;
use lf_io::{DeviceFault, Output, Sink, send};

/// A text that is being written to a sink. The buffer holds the bytes not sent yet. After a call of
/// the sink has failed, no other call is made.
#[derive(Drop)]
pub(crate) struct BufferedOutput<'a, W> {
    sink: &'a mut W,
    waiting: &'a mut Vec<u8>,
    failed: bool,
}

impl<'a, W: Sink> BufferedOutput<'a, W> {
    /// Makes an output over the sink. The buffer's contents are the beginning of the text.
    pub(crate) fn new(sink: &'a mut W, waiting: &'a mut Vec<u8>) -> BufferedOutput<'a, W>
        ensures sink { result.sink.now ≡ sink.old }
        ensures same_sink { result.sink.ghost_name ≡ sink.entry.ghost_name }
        ensures waiting { result.waiting.now ≡ waiting.old }
        ensures same_buffer { result.waiting.ghost_name ≡ waiting.entry.ghost_name }
        ensures fresh { result.failed ≡ false }
    {
        BufferedOutput {
            sink,
            waiting,
            failed: false,
        }
    }

    /// Writes the buffered bytes and flushes. `Err` if a call of the sink fails or has failed.
    pub(crate) fn finish(&mut self) -> Result<(), DeviceFault>
        ensures ok { (before : W) (text : List ℕ)
            → IsUnderWay self.old.failed (W.contents before)
            (W.contents self.old.sink.now) text self.old.waiting.now.items
            → OnOk result (Appends (W.contents before) (W.contents self.new.sink.now) text) }
        ensures prefix { (before : W) (text : List ℕ)
            → IsUnderWay self.old.failed (W.contents before)
            (W.contents self.old.sink.now) text self.old.waiting.now.items
            → OnErr result ((n : ℕ) × Appends (W.contents before) (W.contents self.new.sink.now) (take n text)) }
        ensures flushed { OnOk result (W.is_flushed self.new.sink.now ≡ true) }
        ensures healthy { OnOk result (self.old.failed ≡ false) }
        ensures kept { OnOk result (W.has_failed self.new.sink.now ≡ W.has_failed self.old.sink.now) }
        ensures failed { OnErr result ((self.old.failed ≡ true → W.has_failed self.old.sink.now ≡ true)
            → W.has_failed self.new.sink.now ≡ true) }
        ensures held { W.holds self.new.sink.now ≡ W.holds self.old.sink.now }
        ensures same_sink { self.new.sink.ghost_name ≡ self.old.sink.ghost_name }
        ensures same_buffer { self.new.waiting.ghost_name ≡ self.old.waiting.ghost_name }
        ensures room { self.new.waiting.now ≡ self.old.waiting.now }
    {
        if self.failed {
            return Err(DeviceFault);
        }
        send(self.sink, self.waiting.as_slice())
    }
}

impl<'a, W: Sink> Output for BufferedOutput<'a, W> {
    ghost took = { λ start now text.
        (now.sink.ghost_name ≡ start.sink.ghost_name) × (now.waiting.ghost_name ≡ start.waiting.ghost_name)
        × (vec_capacity start.waiting.now ≤ vec_capacity now.waiting.now)
        × (W.holds now.sink.now ≡ W.holds start.sink.now)
        × (W.has_failed now.sink.now ≡ has_failed_since now.failed (W.has_failed start.sink.now))
        × IsUnderWay now.failed (W.contents start.sink.now) (W.contents now.sink.now)
        (start.waiting.now.items ++ text) now.waiting.now.items };

    fn put(&mut self, bytes: &[u8]) {
        if self.failed {
            return;
        }
        if bytes.len() <= self.waiting.capacity() - self.waiting.len() {
            put(self.waiting, bytes);
            return;
        }
        self.failed = send_both(self.sink, self.waiting.as_slice(), bytes).is_err();
        self.waiting.clear();
    }
}
