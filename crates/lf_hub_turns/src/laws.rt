//! What holds of turns after every list of events.

ghost use Rattle.std.specs.Prelude.{ℕ, List};
ghost use Rattle.lf_hub_turns.specs.Fairness.{ClientsTakeTurns, TeamsTakeTurns, TurnEvent, no_client, run_turns};

/// A law: between two turns of a team that waits, each other team has at most one.
pub fn teams_take_turns()
    ensures { (teams : ℕ) (events : List TurnEvent) → TeamsTakeTurns (run_turns events (no_client teams)) }
{}

/// A law: between two turns of a client that waits, each other client of its team has at most one.
pub fn clients_take_turns()
    ensures { (teams : ℕ) (events : List TurnEvent) → ClientsTakeTurns (run_turns events (no_client teams)) }
{}
