//! The traits of sources and sinks.

ghost use Rattle.std.specs.Prelude.{◌≡◌, ◌<◌, ◌≤◌, ◌+◌, ℕ, List, Option, Bool, ◌||◌, IfOk, OnOk, length, is_err, false, true};
ghost use Rattle.std.specs.Io.{ReadsAtMost, WritesAtMost};
ghost use Rattle.std.specs.Io.KnownBytes.{ReadConsumes, WriteAppends, Keeps};

/// The error of a failed call of a device.
#[derive(Clone, Copy, Debug, PartialEq, Eq)]
pub struct DeviceFault;

/// A source of bytes.
pub trait Source {
    /// The bytes that the following reads will return, if known.
    ghost remaining: { Self → Option (List ℕ) };

    /// The number of reads made.
    ghost reads: { Self → ℕ };

    /// Whether a call has failed.
    ghost has_failed: { Self → Bool };

    /// The reader that the source holds, if it holds one by a reference.
    ghost holds: { Self → ℕ } = { λ _. 0 };

    /// Reads into the front of the buffer and returns the number of bytes; 0 is the end of the
    /// input. Each call counts as a read. `Err` if the read fails.
    fn read(&mut self, buffer: &mut [u8]) -> Result<usize, DeviceFault>
        requires countable { reads self.old < 18446744073709551615 }
        ensures bound { ReadsAtMost result buffer.new }
        ensures bytes { ReadConsumes (remaining self.old) (remaining self.new) result buffer.new }
        ensures counted { reads self.new ≡ reads self.old + 1 }
        ensures failed { has_failed self.new ≡ (has_failed self.old || is_err result) }
        ensures held { holds self.new ≡ holds self.old };
}

/// A sink for bytes.
pub trait Sink {
    /// The bytes that the sink holds, if known.
    ghost contents: { Self → Option (List ℕ) };

    /// Whether everything written is flushed.
    ghost is_flushed: { Self → Bool };

    /// Whether a call has failed.
    ghost has_failed: { Self → Bool };

    /// The writer that the sink holds, if it holds one by a reference.
    ghost holds: { Self → ℕ } = { λ _. 0 };

    /// Takes a front of the bytes, at least one, and returns the number taken. `Err` if the write
    /// fails or takes no byte.
    fn write(&mut self, bytes: &[u8]) -> Result<usize, DeviceFault>
        requires { 0 < length bytes.now }
        ensures bound { WritesAtMost result bytes.now }
        ensures some { IfOk result (λ n. 0 < n) }
        ensures bytes { WriteAppends (contents self.old) (contents self.new) result bytes.now }
        ensures flushed { is_flushed self.new ≡ false }
        ensures failed { has_failed self.new ≡ (has_failed self.old || is_err result) }
        ensures held { holds self.new ≡ holds self.old };

    /// Makes sure that everything written is passed on. `Err` if that fails.
    fn flush(&mut self) -> Result<(), DeviceFault>
        ensures bytes { Keeps (contents self.old) (contents self.new) }
        ensures flushed { OnOk result (is_flushed self.new ≡ true) }
        ensures failed { has_failed self.new ≡ (has_failed self.old || is_err result) }
        ensures held { holds self.new ≡ holds self.old };
}
