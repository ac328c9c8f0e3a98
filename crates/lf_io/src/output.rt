//! Outputs, which take a text piece by piece.

ghost use Rattle.std.specs.Prelude.{List, ℕ};
ghost use Rattle.lf_io.specs.Output.{PutsText};

/// A sink for the bytes of a text, written piece by piece.
///
/// A piece that cannot be taken is dropped, and so are all later ones. The caller that made the
/// output checks for this at the end. `took` is what an implementation promises about the text that
/// was written.
pub trait Output {
    /// Holds if exactly the bytes of this text were written between the first output and the
    /// second.
    ghost took: { Self → Self → List ℕ → Type 0 };

    /// Writes the bytes. If `took` held of a text so far, it then holds of that text followed by
    /// these bytes.
    fn put(&mut self, bytes: &[u8])
        ensures { PutsText took self.old self.new bytes.now };
}
