//! A law on loading.

ghost use Rattle.lf_frame.specs.Alike.{AcceptedAlike, FindAlike, LoadedAlike, RefusedAlike};

/// Loading ignores the positions of components and their placement clauses in the DEF text. Texts
/// that differ only in these positions are refused alike, and a design of one is a design of the
/// other.
pub fn positions_play_no_part()
    ensures findings { FindAlike }
    ensures accepted { AcceptedAlike }
    ensures refused { RefusedAlike }
    ensures loaded { LoadedAlike }
{}
