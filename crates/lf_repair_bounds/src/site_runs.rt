//! The longest run of sites of a range that no blocked sites interrupt.

ghost use Rattle.std.specs.Prelude.{IsPermutation};
ghost use Rattle.lf_repair_bounds.specs.SiteRuns.{SitesRise, IsLongestRun};

/// Sites of a row, by their positions: those from `from` on and below `to`.
#[derive(Clone, Copy)]
pub(crate) struct SiteRange {
    pub(crate) from: u64,
    pub(crate) to: u64,
}

/// Sorts the ranges by their first sites.
pub(crate) fn sort_ranges(ranges: &mut Vec<SiteRange>)
    ensures same { IsPermutation ranges.old.items ranges.new.items }
    ensures order { SitesRise ranges.new.items }
{
    ranges.sort_unstable_by_key(|sites| sites.from);
}

/// The number of sites of the longest run of the range that holds no blocked site. The blocked
/// ranges are in order of their first sites, and may overlap.
pub(crate) fn longest_run(range: &SiteRange, blocked: &[SiteRange]) -> u64
    requires { SitesRise blocked.now }
    ensures { IsLongestRun range.now blocked.now result }
{
    let mut start = range.from;
    let mut longest: u64 = 0;
    for sites in blocked {
        longest = longest.max(sites.from.min(range.to).saturating_sub(start));
        start = start.max(sites.to);
    }
    longest.max(range.to.saturating_sub(start))
}
