//! Laws over whole connections.

ghost use Rattle.lf_server.specs.Laws.{ServingRuns, RepliesAreOwn, RepliesFollowDesign};

/// However serving ends, the floor has run the commands of the lines acted on. What holds of runs
/// therefore holds of connections.
pub fn serving_runs()
    ensures { ServingRuns }
{}

/// A team that begins in the same state and sends the same commands gets the same texts, byte for
/// byte. It does not matter what the other teams have and send, or how the two connections end.
pub fn replies_are_own()
    ensures { RepliesAreOwn }
{}

/// The same for two loaded designs that have the same frame and the same cells of the team. Cells
/// of other teams may differ.
pub fn replies_follow_design()
    ensures { RepliesFollowDesign }
{}
