//! A cell that breaks a rule.

use lf_rules::Broken;

/// A cell that breaks a rule at its place.
#[derive(Clone, Copy, Debug, PartialEq, Eq)]
pub struct BrokenCell {
    /// The cell's number: its position in the list.
    pub own: u32,
    /// The first rule that it breaks.
    pub broken: Broken,
}
