//! A floor that counts, for other modules.

ghost use Rattle.std.specs.Prelude.{◌≡◌, ◌≤◌, ◌+◌, ◌++◌, List, ℕ, Bool, true, length, vec_capacity, vec_len};
ghost use Rattle.lf_hub_clients.specs.Turns.{is_change, short_limit};

use lf_hub_clients::{Floor, Outcome};

/// A counter that all teams share. `add` counts, `get` shows the count, `open` begins session 0 and
/// `close` ends it, `bye` ends the connection, and `iam` gives it a label.
#[derive(Drop)]
pub(crate) struct Counter {
    pub(crate) count: u64,
}

/// Writes a reply of at most 64 bytes.
fn put(reply: &mut Vec<u8>, text: &[u8])
    requires empty { vec_len reply.old ≡ 0 }
    requires text { length text.now ≤ 64 }
    requires room { short_limit ≤ vec_capacity reply.old }
    ensures len { length reply.new.items ≤ short_limit }
    ensures capacity { vec_capacity reply.old ≤ vec_capacity reply.new }
{
    if reply.extend_from_slice(text).is_err() {
        unreachable!();
    }
}

impl Floor for Counter {
    ghost answers = { λ team line old reply outcome new. Unit {0} };

    ghost shows = { λ team line floor reply. Unit {0} };

    ghost can_change = { λ line. true };

    fn may_change(&self, line: &[u8]) -> bool {
        true
    }

    fn answer(&mut self, team: u32, line: &[u8], reply: &mut Vec<u8>) -> Outcome {
        match line {
            b"add" => {
                self.count = self.count.wrapping_add(1);
                put(reply, b"ok\n");
                Outcome::Changed
            }
            b"open" => {
                put(reply, b"ok 0 0\n");
                Outcome::Opened { session: 0 }
            }
            b"close" => {
                put(reply, b"ok\n");
                Outcome::Closed { session: 0 }
            }
            b"bye" => {
                put(reply, b"ok\n");
                Outcome::Ended
            }
            b"iam" => {
                put(reply, b"ok\n");
                Outcome::Named
            }
            _ => {
                put(reply, b"no 1 BadRequest\n");
                Outcome::Unchanged
            }
        }
    }

    fn look(&mut self, team: u32, line: &[u8], reply: &mut Vec<u8>) {
        put(reply, b"ok\n");
    }

    fn close(
        &mut self,
        team: u32,
        session: u32,
        line: &mut Vec<u8>,
        reply: &mut Vec<u8>,
    ) -> Outcome {
        put(line, b"close");
        put(reply, b"ok\n");
        Outcome::Closed { session }
    }
}
