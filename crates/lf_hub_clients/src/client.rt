//! One connection of a hub.

ghost use Rattle.std.specs.Prelude.{◌≡◌, ◌≤◌, ◌+◌, ◌++◌, ◌∷◌, ◌⊎◌, [], ℕ, IfOk, OnErr, OnOk, length, nat_lt, take, min, true, false, vec_capacity, vec_len};
ghost use Rattle.lf_hub_clients.specs.Connections.{new_connection, with_bytes, with_answer, released, after_sending, leaving, freed, room_of, may_answer, turn_of, label_after, stage_after};
ghost use Rattle.lf_hub_clients.specs.Lines.{waiting_limit};
ghost use Rattle.lf_hub_clients.specs.Turns.{IsAnswered, is_change, refusal, sent_turn, short_limit};

use crate::buffer::append;
use crate::floor::{Floor, Outcome};
use crate::line_queue::LineQueue;
use crate::reply_queue::ReplyQueue;
use std::alloc::{AllocError, Global};
use std::marker::Model;

/// The most bytes of the reply to an accepted change.
const SHORT: usize = 4096;

/// The bytes of replies that a client may leave unread before no more of its lines are answered.
const UNSENT: usize = 65_536;

/// What a client may do.
#[derive(Clone, Copy, Debug, PartialEq, Eq)]
pub enum Access {
    /// It may change its team.
    Changes,
    /// It may only query.
    Queries,
}

/// How far a connection has come.
#[derive(Clone, Copy, Debug, PartialEq, Eq)]
pub enum Stage {
    /// Its lines are answered.
    Open,
    /// A line has ended it: no other line is answered, and its replies are still sent.
    Done,
    /// It is gone, and its sessions are being closed.
    Leaving,
    /// Nobody uses its slot.
    Free,
}

/// One connection of a hub: the lines that wait, and the replies that were not sent yet.
#[derive(Drop)]
pub struct Client {
    number: u64,
    team: u32,
    access: Access,
    stage: Stage,
    label: Vec<u8>,
    lines: LineQueue,
    replies: ReplyQueue,
}

impl Model for Client {
    ghost use Rattle.lf_hub_clients.specs.Connections.{Connection};

    ghost Value = { Connection };

    ghost view = { λ c. record {
      number = c.number;
      team = c.team;
      access = c.access;
      stage = c.stage;
      label = c.label.items;
      lines = c.lines.lines;
      begun = c.lines.begun;
      ready = c.replies.ready;
      held = c.replies.held;
    } };
}

/// Replaces the buffer's contents with the reply to a line that is refused for lack of memory.
fn refuse(reply: &mut Vec<u8>)
    requires { short_limit ≤ vec_capacity reply.old }
    ensures items { reply.new.items ≡ refusal }
    ensures capacity { vec_capacity reply.old ≤ vec_capacity reply.new }
{
    reply.clear();
    append(reply, b"no 12 OutOfMemory\n");
}

/// Has the floor answer a line of a client. A line that may be a change is refused unless changes
/// are taken.
fn ask<F: Floor>(
    floor: &mut F,
    team: u32,
    access: Access,
    takes_changes: bool,
    line: &[u8],
    reply: &mut Vec<u8>,
) -> Outcome
    requires empty { reply.old.items ≡ [] }
    requires room { short_limit ≤ vec_capacity reply.old }
    ensures answered { (number : ℕ) → IsAnswered F.answers F.shows floor.old
        (sent_turn number team access line.now reply.new.items result) floor.new }
    ensures unchanged { is_change result ≡ false → floor.new ≡ floor.old }
    ensures untaken { takes_changes ≡ false → is_change result ≡ false }
    ensures short { is_change result ≡ true → length reply.new.items ≤ short_limit }
    ensures capacity { vec_capacity reply.old ≤ vec_capacity reply.new }
{
    if access == Access::Queries {
        floor.look(team, line, reply);
        return Outcome::Unchanged;
    }
    if !takes_changes && floor.may_change(line) {
        refuse(reply);
        return Outcome::Unchanged;
    }
    floor.answer(team, line, reply)
}

/// Makes room for a reply, and for a label if the line gives one. False if an allocation fails.
fn make_room(
    replies: &mut ReplyQueue,
    label: &mut Vec<u8>,
    outcome: Outcome,
    line: &[u8],
    reply: &[u8],
) -> bool
    ensures ready { replies.new.ready ≡ replies.old.ready }
    ensures held { replies.new.held ≡ replies.old.held }
    ensures label { label.new.items ≡ label.old.items }
    ensures room { result ≡ true → length reply.now ≤ replies.new.room }
    ensures grows { replies.old.room ≤ replies.new.room }
    ensures label_room { result ≡ true → outcome ≡ Outcome.Named
        → vec_len label.new + length line.now ≤ vec_capacity label.new }
    ensures changes { is_change outcome ≡ true → length reply.now ≤ replies.old.room → result ≡ true }
{
    if outcome == Outcome::Named && label.reserve(line.len()).is_err() {
        return false;
    }
    replies.reserve(reply.len()).is_ok()
}

/// Makes room for a reply, and for a label if the line gives one. If an allocation fails, the line
/// is refused instead, which happens to no change. Returns the outcome that is left.
fn settle(
    replies: &mut ReplyQueue,
    label: &mut Vec<u8>,
    asked: Outcome,
    line: &[u8],
    reply: &mut Vec<u8>,
) -> Outcome
    requires replies { short_limit ≤ replies.old.room }
    requires reply { short_limit ≤ vec_capacity reply.old }
    requires short { is_change asked ≡ true → length reply.old.items ≤ short_limit }
    ensures outcome { ((result ≡ asked) × (reply.new.items ≡ reply.old.items))
        ⊎ ((is_change asked ≡ false) × (result ≡ Outcome.Unchanged) × (reply.new.items ≡ refusal)) }
    ensures ready { replies.new.ready ≡ replies.old.ready }
    ensures held { replies.new.held ≡ replies.old.held }
    ensures label { label.new.items ≡ label.old.items }
    ensures room { length reply.new.items ≤ replies.new.room }
    ensures label_room { result ≡ Outcome.Named → vec_len label.new + length line.now ≤ vec_capacity label.new }
    ensures capacity { vec_capacity reply.old ≤ vec_capacity reply.new }
{
    if make_room(replies, label, asked, line, reply.as_slice()) {
        return asked;
    }
    refuse(reply);
    Outcome::Unchanged
}

/// Makes the label and the stage those after a line with this outcome. A label has room.
fn mark(label: &mut Vec<u8>, stage: &mut Stage, outcome: Outcome, line: &[u8])
    requires { outcome ≡ Outcome.Named → vec_len label.old + length line.now ≤ vec_capacity label.old }
    ensures label { label.new.items ≡ label_after outcome line.now label.old.items }
    ensures stage { stage.new ≡ stage_after outcome stage.old }
{
    match outcome {
        Outcome::Named => {
            label.clear();
            append(label, line);
        }
        Outcome::Ended => *stage = Stage::Done,
        Outcome::Unchanged => {}
        Outcome::Changed => {}
        Outcome::Opened { .. } => {}
        Outcome::Closed { .. } => {}
    }
}

/// Holds a reply that has room.
fn hold(replies: &mut ReplyQueue, reply: &[u8])
    requires { length reply.now ≤ replies.old.room }
    ensures ready { replies.new.ready ≡ replies.old.ready }
    ensures held { replies.new.held ≡ replies.old.held ++ reply.now }
{
    if replies.hold(reply).is_err() {
        unreachable!();
    }
}

impl Client {
    /// Makes a connection by the socket of a team.
    pub fn new(alloc: Global, number: u64, team: u32, access: Access) -> Client
        ensures { result ≡ new_connection number team access }
    {
        Client {
            number,
            team,
            access,
            stage: Stage::Open,
            label: Vec::new(alloc),
            lines: LineQueue::new(alloc),
            replies: ReplyQueue::new(alloc),
        }
    }

    /// Returns the number of the connection.
    pub fn number(&self) -> u64
        ensures { result ≡ self.now.number }
    {
        self.number
    }

    /// Returns the team of the connection's socket.
    pub fn team(&self) -> u32
        ensures { result ≡ self.now.team }
    {
        self.team
    }

    /// Returns how far the connection has come.
    pub fn stage(&self) -> Stage
        ensures { result ≡ self.now.stage }
    {
        self.stage
    }

    /// Returns the last line that gave the connection a label.
    pub fn label(&self) -> &[u8]
        ensures { result.now ≡ self.now.label }
    {
        self.label.as_slice()
    }

    /// Returns how many more bytes may come from the client.
    pub fn room(&self) -> usize
        ensures { result ≡ room_of self.now }
    {
        match self.stage {
            Stage::Open => self.lines.room(),
            Stage::Done => 0,
            Stage::Leaving => 0,
            Stage::Free => 0,
        }
    }

    /// Returns whether the client has begun a line that has not ended.
    pub fn has_begun(&self) -> bool
        ensures { result ≡ nat_lt 0 (length self.now.begun) }
    {
        self.lines.has_begun()
    }

    /// Returns whether the next line may be answered.
    pub fn may_answer(&self) -> bool
        ensures { result ≡ may_answer self.now }
    {
        match self.stage {
            Stage::Open => self.lines.has_line() && self.replies.len() < UNSENT,
            Stage::Done => false,
            Stage::Leaving => false,
            Stage::Free => false,
        }
    }

    /// Takes bytes that the client sent, as many as there is room for, and returns their number.
    /// `Err` if an allocation fails; then nothing changes.
    pub fn take_in(&mut self, bytes: &[u8]) -> Result<usize, AllocError>
        ensures taken { IfOk result (λ n. n ≡ min (length bytes.now) (room_of self.old)) }
        ensures after { IfOk result (λ n. self.new ≡ with_bytes (take n bytes.now) self.old) }
        ensures err { OnErr result (self.new ≡ self.old) }
    {
        let count = bytes.len().min(self.room());
        self.lines.take_in(&bytes[..count])
    }

    /// Answers the next line, and holds the reply until the next sync. The line and the reply are
    /// left in the buffers. `Err` if there is no memory for any reply; then nothing changes.
    ///
    /// A line is refused as out of memory if its reply has no room, or if it may be a change and
    /// changes are not taken.
    pub fn answer<F: Floor>(
        &mut self,
        floor: &mut F,
        takes_changes: bool,
        line: &mut Vec<u8>,
        reply: &mut Vec<u8>,
    ) -> Result<Outcome, AllocError>
        requires waits { may_answer self.old ≡ true }
        requires room { short_limit ≤ vec_capacity reply.old }
        ensures line { IfOk result (λ outcome. self.old.lines ≡ line.new.items ∷ self.new.lines) }
        ensures answered { IfOk result (λ outcome. IsAnswered F.answers F.shows floor.old
            (turn_of self.old line.new.items reply.new.items outcome) floor.new) }
        ensures after { IfOk result (λ outcome. self.new
            ≡ with_answer (turn_of self.old line.new.items reply.new.items outcome) self.old) }
        ensures untaken { IfOk result (λ outcome. takes_changes ≡ false → is_change outcome ≡ false) }
        ensures short { IfOk result (λ outcome. is_change outcome ≡ true → length reply.new.items ≤ short_limit) }
        ensures within { IfOk result (λ outcome. length line.new.items ≤ waiting_limit) }
        ensures err { OnErr result (self.new ≡ self.old) }
        ensures kept { OnErr result (floor.new ≡ floor.old) }
        ensures capacity { vec_capacity reply.old ≤ vec_capacity reply.new }
        ensures line_capacity { vec_capacity line.old ≤ vec_capacity line.new }
    {
        self.replies.reserve(SHORT)?;
        if !self.lines.take_line(line)? {
            unreachable!();
        }
        reply.clear();
        let asked = ask(floor, self.team, self.access, takes_changes, line, reply);
        let outcome = settle(&mut self.replies, &mut self.label, asked, line, reply);
        hold(&mut self.replies, reply.as_slice());
        mark(&mut self.label, &mut self.stage, outcome, line);
        Ok(outcome)
    }

    /// Returns the bytes that may be sent.
    pub fn ready(&self) -> &[u8]
        ensures { result.now ≡ self.now.ready }
    {
        self.replies.ready()
    }

    /// Lets everything that is held be sent.
    pub fn release(&mut self)
        ensures { self.new ≡ released self.old }
    {
        self.replies.release();
    }

    /// Removes the first `count` bytes that may be sent, which were sent.
    pub fn mark_sent(&mut self, count: usize)
        requires { count ≤ length self.old.ready }
        ensures { self.new ≡ after_sending count self.old }
    {
        self.replies.mark_sent(count);
    }

    /// Drops what waits and what was not sent, since the client is gone.
    pub fn leave(&mut self, alloc: Global)
        ensures { self.new ≡ leaving self.old }
    {
        self.stage = Stage::Leaving;
        self.lines = LineQueue::new(alloc);
        self.replies = ReplyQueue::new(alloc);
    }

    /// Lets another connection have the slot.
    pub fn free(&mut self)
        ensures { self.new ≡ freed self.old }
    {
        self.stage = Stage::Free;
    }
}
