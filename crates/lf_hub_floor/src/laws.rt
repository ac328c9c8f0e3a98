//! What holds of all answers.

ghost use Rattle.lf_hub_floor.specs.Laws.{ChangesCanBeRecorded, OthersAreKept, QueriesAreOwn, RepliesAreOwn, TurnsRun};

/// A law: what a hub's lines do to the floor is a run of the floor. Its journal is the accepted
/// changes among the lines. So what holds of runs holds of a hub: teams are isolated, a fully legal
/// committed design stays so, and the journal restores the floor.
pub fn turns_run()
    ensures { TurnsRun }
{}

/// A law: a line by the socket of one team leaves the other teams and the frame unchanged.
pub fn others_are_kept()
    ensures { OthersAreKept }
{}

/// A law: the reply to a line, and the team's state after it, depend on the team's own state and the
/// frame alone, unless memory runs out.
pub fn replies_are_own()
    ensures { RepliesAreOwn }
{}

/// A law: the same holds on a query socket.
pub fn queries_are_own()
    ensures { QueriesAreOwn }
{}

/// A law: an accepted change and its reply can be a record of the journal. Neither has a zero byte,
/// and each is one line.
pub fn changes_can_be_recorded()
    ensures { ChangesCanBeRecorded }
{}
