//! The open sessions of a hub's clients.

ghost use Rattle.std.specs.Prelude.{◌≡◌, ◌<◌, ◌≤◌, vec_capacity, vec_len};
ghost use Rattle.lf_hub.specs.Machine.{session_of, sessions_after, without_session};

use lf_hub_clients::Outcome;

/// A session of a team, and the slot of the client that opened it.
#[derive(Clone, Copy, Debug, PartialEq, Eq)]
pub struct OpenSession {
    pub team: u32,
    pub session: u32,
    pub slot: usize,
}

/// Returns the first session of the client in a slot.
pub(crate) fn session_of(sessions: &[OpenSession], slot: usize) -> Option<OpenSession>
    ensures { result ≡ session_of slot sessions.now }
{
    for own in sessions {
        if own.slot == slot {
            return Some(*own);
        }
    }
    None
}

/// Removes a session of a team.
pub(crate) fn remove_session(sessions: &mut Vec<OpenSession>, team: u32, session: u32)
    ensures items { sessions.new.items ≡ without_session team session sessions.old.items }
    ensures len { vec_len sessions.new ≤ vec_len sessions.old }
    ensures capacity { vec_capacity sessions.new ≡ vec_capacity sessions.old }
{
    for i in 0..sessions.len() {
        if sessions[i].team == team && sessions[i].session == session {
            sessions.remove(i);
            return;
        }
    }
}

/// Notes the session that a line of the client in a slot has opened or closed. There is room for one
/// more.
pub(crate) fn note_outcome(
    sessions: &mut Vec<OpenSession>,
    slot: usize,
    team: u32,
    outcome: Outcome,
)
    requires { vec_len sessions.old < vec_capacity sessions.old }
    ensures { sessions.new.items ≡ sessions_after slot team outcome sessions.old.items }
{
    match outcome {
        Outcome::Opened { session } => {
            remove_session(sessions, team, session);
            if sessions
                .push(OpenSession {
                    team,
                    session,
                    slot,
                })
                .is_err()
            {
                unreachable!();
            }
        }
        Outcome::Closed { session } => remove_session(sessions, team, session),
        Outcome::Unchanged => {}
        Outcome::Changed => {}
        Outcome::Named => {}
        Outcome::Ended => {}
    }
}
