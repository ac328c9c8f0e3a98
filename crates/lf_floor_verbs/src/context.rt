//! What a team's command needs besides the tables.

use lf_rules::Padding;
use std::alloc::Global;

/// The context of a team's command: the allocator, the search for best places, the team's number in
/// the frame, and its padding. With the frame and a legalizer this is `TeamRules` in contracts.
#[derive_where(Clone, Copy)]
pub struct TeamContext<'a, S> {
    /// The allocator.
    pub alloc: Global,
    /// The search for best places.
    pub seeker: &'a S,
    /// The team's number: the fence teams in the frame's order, then the ground team outside all
    /// fences.
    pub number: usize,
    /// The least distance between the team's cells, in core sites.
    pub padding: Padding,
}
