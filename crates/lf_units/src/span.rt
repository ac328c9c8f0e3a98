//! A range along one axis.

ghost use Rattle.std.specs.Prelude.{◌≡◌};
ghost use Rattle.lf_units.specs.declared.span.Span.{Span};

/// The whole numbers from `lo` on and below `hi`, in database units.
///
/// A span with `hi <= lo` is allowed and holds no number. Any other span is *filled*.
#[derive(Clone, Copy, Debug, PartialEq, Eq)]
pub struct Span {
    pub lo: i64,
    pub hi: i64,
}

/// A value that occupies a span: a cell in a row, or a span itself.
pub trait HasSpan {
    // The span that the value occupies.
    ghost span: { Self → Span };

    /// Returns the span that the value occupies.
    fn span(&self) -> Span
        ensures { result ≡ span self.now };
}

impl HasSpan for Span {
    ghost span = { λ s. s };

    fn span(&self) -> Span {
        *self
    }
}
