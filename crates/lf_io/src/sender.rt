//! Sending of all bytes of a text.

ghost use Rattle.std.specs.Prelude.{◌≡◌, OnErr, OnOk, ℕ, take, true};
ghost use Rattle.std.specs.Io.KnownBytes.{Appends};

use crate::traits::{DeviceFault, Sink};

/// Writes all the bytes, in as many calls as needed, and flushes them. `Err` if a call fails; then
/// a front of the bytes, perhaps nothing, is written.
pub fn send<W: Sink>(sink: &mut W, bytes: &[u8]) -> Result<(), DeviceFault>
    ensures ok { OnOk result (Appends (W.contents sink.old) (W.contents sink.new) bytes.now) }
    ensures flushed { OnOk result (W.is_flushed sink.new ≡ true) }
    ensures healthy { OnOk result (W.has_failed sink.new ≡ W.has_failed sink.old) }
    ensures prefix { OnErr result ((n : ℕ) × Appends (W.contents sink.old) (W.contents sink.new) (take n bytes.now)) }
    ensures failed { OnErr result (W.has_failed sink.new ≡ true) }
    ensures held { W.holds sink.new ≡ W.holds sink.old }
{
    let mut at = 0;
    while at < bytes.len() {
        at += sink.write(&bytes[at..])?;
    }
    sink.flush()
}
