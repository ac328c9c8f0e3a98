//! What holds of a hub after every list of events.

ghost use Rattle.std.specs.Prelude.{◌≡◌, ℕ, List, false};
ghost use Rattle.lf_hub_clients.specs.Turns.{IsAnswered, Turn, is_change};
ghost use Rattle.lf_hub_clients.specs.declared.client.Access.TheVariants.{Queries};
ghost use Rattle.lf_hub.specs.Laws.{ActInTurn, Follow, IsBounded, JournalIsExact, KeepsAcknowledged, LinesAreOwn, RepliesAreOwn, SessionsAreClosed, TeamsAreOwn};
ghost use Rattle.lf_hub.specs.Machine.{HubEvent};
ghost use Rattle.lf_hub.specs.World.{Runs, run, start, turns_in};

use lf_hub_clients::Floor;

/// A law: each client's lines are answered in their order, and none is skipped.
pub fn lines_are_own()
    ensures { (events : List HubEvent) → Runs events start → LinesAreOwn (run events start) }
{}

/// A law: a client is sent the replies to its own lines, in order, and each of them only after its
/// line was answered before a sync.
pub fn replies_are_own()
    ensures { (events : List HubEvent) → Runs events start → RepliesAreOwn (run events start) }
{}

/// A law: the journal has the accepted changes, in order.
pub fn journal_is_exact()
    ensures { (events : List HubEvent) → Runs events start → JournalIsExact (run events start) }
{}

/// A law: a client acts for the team of its socket alone.
pub fn teams_are_own()
    ensures { (events : List HubEvent) → Runs events start → TeamsAreOwn (run events start) }
{}

/// A law: a slot is not given away before all sessions of its last client are closed.
pub fn sessions_are_closed()
    ensures { (events : List HubEvent) → Runs events start → SessionsAreClosed (run events start) }
{}

/// A law: the memory of a connection is bounded.
pub fn memory_is_bounded()
    ensures { (events : List HubEvent) → Runs events start → IsBounded (run events start) }
{}

/// A law: the lines, in the order answered, are a run of the floor with these replies.
pub fn lines_run<F: Floor>()
    ensures { (events : List HubEvent) (old new : F) → Runs events start
        → ActInTurn (IsAnswered F.answers F.shows) old events new
        → Follow (IsAnswered F.answers F.shows) old (turns_in (run events start)) new }
{}

/// A law: a line of a client that may only query changes nothing.
pub fn queries_change_nothing<F: Floor>()
    ensures floor { (old new : F) (turn : Turn) → turn.access ≡ Queries
        → IsAnswered F.answers F.shows old turn new → new ≡ old }
    ensures record { (old new : F) (turn : Turn) → turn.access ≡ Queries
        → IsAnswered F.answers F.shows old turn new → is_change turn.outcome ≡ false }
{}

/// A law: whatever part of the records since the last sync a crash leaves, the journal's floor is that
/// after the lines answered before the last sync and some of those since.
pub fn crash_keeps_acknowledged<F: Floor>()
    ensures { (events : List HubEvent) (old new : F) (left : ℕ) → Runs events start
        → Follow (IsAnswered F.answers F.shows) old (turns_in (run events start)) new
        → KeepsAcknowledged (IsAnswered F.answers F.shows) old (run events start) left }
{}
