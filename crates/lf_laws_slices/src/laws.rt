//! Laws on frames, teams, floors and designs that are alike.

ghost use Rattle.lf_laws_slices.specs.Laws.{AlikeIsSymmetric, RulesAreAlike, VerdictsAreAlike, BestPlacesAreAlike, OutcomesAreAlike};
ghost use Rattle.lf_laws_slices.specs.Laws.{RunsAreAlike, DesignsOpenAlike, SlicesAnswerAlike, PushesAnswerAlike};
ghost use Rattle.lf_laws_slices.specs.Slices.{SlicesExist};

use lf_rules::{best_place_is_unique, verdict_is_unique};

/// Being alike is symmetric: for frames, and for floors and designs for a team.
pub fn alike_is_symmetric()
    ensures { AlikeIsSymmetric }
{}

/// On alike frames each rule holds for a candidate on both or on neither.
pub fn rules_are_alike()
    ensures { RulesAreAlike }
{}

/// On alike frames a candidate has the same first broken rule, or breaks no rule on either.
pub fn verdicts_are_alike()
    ensures { VerdictsAreAlike }
{
    verdict_is_unique();
}

/// On alike frames a cell has the same best place for a target, or has no best place on either.
pub fn best_places_are_alike()
    ensures { BestPlacesAreAlike }
{
    best_place_is_unique();
}

/// On alike frames a command of a team whose states are alike has the same reply, reports and DEF
/// texts included. Afterwards the states are alike.
pub fn outcomes_are_alike()
    ensures { OutcomesAreAlike }
{
    verdict_is_unique();
    best_place_is_unique();
}

/// In two runs, on floors that are alike for a team, the same commands to that team get the same
/// replies. Afterwards the floors are alike for the team. What the other teams have and send does
/// not matter. A command with the reply `OutOfMemory` counts as not sent.
pub fn runs_are_alike()
    ensures { RunsAreAlike }
{
    verdict_is_unique();
    best_place_is_unique();
}

/// Two loaded designs that are alike for a team begin with floors that are alike for it.
pub fn designs_open_alike()
    ensures { DesignsOpenAlike }
{}

/// A team gets the same replies over its slice as over the whole design. This holds for any two
/// loaded designs that are alike for the team.
pub fn slices_answer_alike()
    ensures { SlicesAnswerAlike }
{
    verdict_is_unique();
    best_place_is_unique();
}

/// The changes of a team on its slice may be pushed to the whole design. There the journal of that
/// run gets the same replies, and the team ends in a state alike to that on the slice.
pub fn pushes_answer_alike()
    ensures { PushesAnswerAlike }
{
    verdict_is_unique();
    best_place_is_unique();
}

/// Each loaded design has a slice for each team, which is alike to it for that team. The slice may
/// have other macros in front, and obstacles in another order.
pub fn slices_exist()
    ensures { SlicesExist }
{}
