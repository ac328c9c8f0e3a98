//! Laws on slices as they are loaded, and on lines and their replies.

ghost use Rattle.lf_laws_slices.specs.Cuts.{CutsExist, SlicesLoadAlike};
ghost use Rattle.lf_laws_slices.specs.Lines.{TextsAreAlike, SliceTextsAreAlike};

use lf_rules::{best_place_is_unique, verdict_is_unique};

/// A design and its slice for a team load as designs that are alike for that team. The slice may
/// have LEF texts with other macros besides those of the team.
pub fn slices_load_alike()
    ensures { SlicesLoadAlike }
{}

/// The inputs of each loaded design, without the components of other teams, are those of a slice.
pub fn cuts_exist()
    ensures { CutsExist }
{}

/// In two connections, to floors that are alike for a team, the same commands to that team get the
/// same texts, byte for byte. It does not matter how the connections end, nor what the other teams
/// have and send. A command with the reply `OutOfMemory` counts as not sent.
pub fn texts_are_alike()
    ensures { TextsAreAlike }
{
    verdict_is_unique();
    best_place_is_unique();
}

/// The same holds for two loaded designs that are alike for the team, as a design and its slice
/// are.
pub fn slice_texts_are_alike()
    ensures { SliceTextsAreAlike }
{
    verdict_is_unique();
    best_place_is_unique();
}
