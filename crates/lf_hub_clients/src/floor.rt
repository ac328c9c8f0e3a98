//! What a hub needs of a floor.

ghost use Rattle.std.specs.Prelude.{◌≡◌, ◌≤◌, ◌⊎◌, [], Bool, ℕ, List, length, false, true, vec_capacity};
ghost use Rattle.lf_hub_clients.specs.Turns.{is_change, short_limit};

/// What became of a line.
#[derive(Clone, Copy, Debug, PartialEq, Eq)]
pub enum Outcome {
    /// The floor is as it was: a query or a refusal.
    Unchanged,
    /// An accepted change other than the following ones.
    Changed,
    /// An accepted `open`, which began the session with this number.
    Opened { session: u32 },
    /// An accepted `close`, which ended the session with this number.
    Closed { session: u32 },
    /// The line gives the connection a label, and the floor is as it was.
    Named,
    /// The line ends the connection, and the floor is as it was.
    Ended,
}

/// Returns whether a line was an accepted change.
pub fn is_change(outcome: Outcome) -> bool
    ensures { result ≡ is_change outcome }
{
    match outcome {
        Outcome::Unchanged => false,
        Outcome::Changed => true,
        Outcome::Opened { .. } => true,
        Outcome::Closed { .. } => true,
        Outcome::Named => false,
        Outcome::Ended => false,
    }
}

/// A floor that answers lines of teams.
///
/// The buffers are empty and have room for 4,096 bytes, as many as a reply to an accepted change may
/// have.
pub trait Floor {
    ghost use Rattle.std.specs.Prelude.{◌≡◌, ◌≤◌, ◌⊎◌, [], Bool, ℕ, List, length, false, true, vec_capacity};
    ghost use Rattle.lf_hub_clients.specs.Turns.{is_change, short_limit};
    ghost use Rattle.lf_hub_clients.specs.declared.floor.Outcome.{Outcome};

    /// Holds if a line of the team, on the first floor, gets this reply, has this outcome, and leaves
    /// the second floor.
    ghost answers: { ℕ → List ℕ → Self → List ℕ → Outcome → Self → Type 0 };

    /// Holds if a line of the team that may change nothing gets this reply on the floor.
    ghost shows: { ℕ → List ℕ → Self → List ℕ → Type 0 };

    /// Whether a line may be an accepted change.
    ghost can_change: { List ℕ → Bool };

    /// Returns whether a line may be an accepted change.
    fn may_change(&self, line: &[u8]) -> bool
        ensures { result ≡ can_change line.now };

    /// Answers a line of the team. Only an accepted change changes the floor.
    fn answer(&mut self, team: u32, line: &[u8], reply: &mut Vec<u8>) -> Outcome
        requires empty { reply.old.items ≡ [] }
        requires room { short_limit ≤ vec_capacity reply.old }
        ensures answers { answers team line.now self.old reply.new.items result self.new }
        ensures unchanged { is_change result ≡ false → self.new ≡ self.old }
        ensures foreseen { is_change result ≡ true → can_change line.now ≡ true }
        ensures short { is_change result ≡ true → length reply.new.items ≤ short_limit }
        ensures capacity { vec_capacity reply.old ≤ vec_capacity reply.new };

    /// Answers a line of the team that may change nothing. The floor is as it was, though a session
    /// may be opened and closed meanwhile.
    fn look(&mut self, team: u32, line: &[u8], reply: &mut Vec<u8>)
        requires empty { reply.old.items ≡ [] }
        requires room { short_limit ≤ vec_capacity reply.old }
        ensures shows { shows team line.now self.old reply.new.items }
        ensures unchanged { self.new ≡ self.old }
        ensures capacity { vec_capacity reply.old ≤ vec_capacity reply.new };

    /// Closes a session of the team: writes the line that does so, and answers it.
    fn close(&mut self, team: u32, session: u32, line: &mut Vec<u8>, reply: &mut Vec<u8>) -> Outcome
        requires line_empty { line.old.items ≡ [] }
        requires line_room { short_limit ≤ vec_capacity line.old }
        requires empty { reply.old.items ≡ [] }
        requires room { short_limit ≤ vec_capacity reply.old }
        ensures answers { answers team line.new.items self.old reply.new.items result self.new }
        ensures unchanged { is_change result ≡ false → self.new ≡ self.old }
        ensures closes { (result ≡ Outcome.Closed session) ⊎ (is_change result ≡ false) }
        ensures short_line { length line.new.items ≤ short_limit }
        ensures short { length reply.new.items ≤ short_limit }
        ensures line_capacity { vec_capacity line.old ≤ vec_capacity line.new }
        ensures capacity { vec_capacity reply.old ≤ vec_capacity reply.new };
}
