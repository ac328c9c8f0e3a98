//! The core of a hub.

ghost use Rattle.std.specs.Prelude.{◌≡◌, ◌<◌, ◌≤◌, ◌+◌, ◌++◌, ◌∷◌, [], ℕ, Some, IfNone, IfOk, IfSome, OnErr, OnOk, cond, decimal, length, min, take, replicate, true, false, vec_capacity, vec_len};
ghost use Rattle.lf_hub_clients.specs.Connections.{freed, may_answer, room_of, turn_of, with_answer};
ghost use Rattle.lf_hub_clients.specs.Lines.{waiting_limit};
ghost use Rattle.lf_hub_clients.specs.Turns.{IsAnswered, closing_turn, is_change, short_limit};
ghost use Rattle.lf_hub_turns.specs.Queues.{joined};
ghost use Rattle.lf_hub.specs.Machine.{May, Opens, Comes, Answers, Syncs, Sends, Leaves, after, changed_at, connection_at, is_live, released_at};
ghost use Rattle.lf_hub.specs.Progress.{Advances, next_client};

use crate::open_sessions::{OpenSession, note_outcome, remove_session, session_of};
use itoa::Buffer;
use lf_hub_clients::{Access, Client, Floor, Outcome, Stage, is_change};
use lf_hub_turns::Turns;
use std::alloc::{AllocError, Global};
use std::marker::Model;
use std::mem::swap;

/// The bytes of the longest record: the number of a connection, a line, and the reply to a change.
const RECORD: usize = 70_000;

/// The most bytes of the reply to an accepted change.
const SHORT: usize = 4096;

/// What a turn has done.
#[derive(Clone, Copy, Debug, PartialEq, Eq)]
pub enum Progress {
    /// Nobody waits.
    Idle,
    /// The client in this slot has no line that may be answered. `stays` says whether it still waits.
    Passed {
        slot: usize,
        stays: bool,
    },
    /// A line of the client in this slot was answered. `stays` says whether it still waits.
    Answered {
        slot: usize,
        outcome: Outcome,
        stays: bool,
    },
    /// A session of the client that has left this slot was closed.
    Closed {
        slot: usize,
        session: OpenSession,
        outcome: Outcome,
    },
    /// The slot may have another client.
    Freed {
        slot: usize,
    },
}

/// The clients of a hub, whose turn it is, and the records since the last sync.
#[derive(Drop)]
pub struct Core {
    alloc: Global,
    made: u64,
    clients: Vec<Client>,
    free: Vec<usize>,
    sessions: Vec<OpenSession>,
    answered: Vec<usize>,
    records: Vec<u8>,
    turns: Turns,
    line: Vec<u8>,
    reply: Vec<u8>,
}

impl Model for Core {
    ghost use Rattle.std.specs.Prelude.{◌≤◌, vec_capacity};
    ghost use Rattle.lf_hub_clients.specs.Turns.{short_limit};
    ghost use Rattle.lf_hub.specs.Progress.{CoreState};

    ghost Value = { CoreState };

    ghost view = { λ c. record {
      hub = record {
        made = c.made;
        slots = c.clients.items;
        sessions = c.sessions.items;
        answered = c.answered.items;
        records = c.records.items;
      };
      turns = c.turns;
      line = c.line.items;
      reply = c.reply.items;
    } };

    ghost invariant = { λ c. (short_limit ≤ vec_capacity c.line) × (short_limit ≤ vec_capacity c.reply) };
}

/// Appends bytes to a buffer that has room for them.
fn append(buffer: &mut Vec<u8>, bytes: &[u8])
    requires { vec_len buffer.old + length bytes.now ≤ vec_capacity buffer.old }
    ensures items { buffer.new.items ≡ buffer.old.items ++ bytes.now }
    ensures len { vec_len buffer.new ≡ vec_len buffer.old + length bytes.now }
    ensures capacity { vec_capacity buffer.old ≤ vec_capacity buffer.new }
{
    if buffer.extend_from_slice(bytes).is_err() {
        unreachable!();
    }
}

/// Appends the record of a line, if it was an accepted change. There is room for the longest record.
fn put_record(records: &mut Vec<u8>, number: u64, line: &[u8], reply: &[u8], outcome: Outcome)
    requires line { length line.now ≤ waiting_limit }
    requires reply { is_change outcome ≡ true → length reply.now ≤ short_limit }
    requires room { is_change outcome ≡ true → vec_len records.old + 70000 ≤ vec_capacity records.old }
    ensures { records.new.items ≡ records.old.items
        ++ cond (is_change outcome) (decimal number ++ 10 ∷ [] ++ line.now ++ 10 ∷ [] ++ reply.now) [] }
{
    if !is_change(outcome) {
        return;
    }
    let mut digits = Buffer::new();
    append(records, digits.format(number).as_bytes());
    append(records, b"\n");
    append(records, line);
    append(records, b"\n");
    append(records, reply);
}

/// Answers the next line of the client in a slot, and returns the outcome and whether another line
/// of it may be answered.
fn answer_client<F: Floor>(
    clients: &mut [Client],
    slot: usize,
    floor: &mut F,
    takes_changes: bool,
    line: &mut Vec<u8>,
    reply: &mut Vec<u8>,
) -> Result<(Outcome, bool), AllocError>
    requires slot { slot < length clients.old }
    requires waits { may_answer (connection_at slot clients.old) ≡ true }
    requires room { short_limit ≤ vec_capacity reply.old }
    ensures first { IfOk result (λ ended. (connection_at slot clients.old).lines
        ≡ line.new.items ∷ (with_answer (turn_of (connection_at slot clients.old) line.new.items reply.new.items ended.0)
        (connection_at slot clients.old)).lines) }
    ensures answered { IfOk result (λ ended. IsAnswered F.answers F.shows floor.old
        (turn_of (connection_at slot clients.old) line.new.items reply.new.items ended.0) floor.new) }
    ensures after { IfOk result (λ ended. clients.new ≡ changed_at slot
        (with_answer (turn_of (connection_at slot clients.old) line.new.items reply.new.items ended.0)) clients.old) }
    ensures untaken { IfOk result (λ ended. takes_changes ≡ false → is_change ended.0 ≡ false) }
    ensures short { IfOk result (λ ended. is_change ended.0 ≡ true → length reply.new.items ≤ short_limit) }
    ensures within { IfOk result (λ ended. length line.new.items ≤ waiting_limit) }
    ensures err { OnErr result (clients.new ≡ clients.old) }
    ensures kept { OnErr result (floor.new ≡ floor.old) }
    ensures capacity { vec_capacity reply.old ≤ vec_capacity reply.new }
    ensures line_capacity { vec_capacity line.old ≤ vec_capacity line.new }
{
    let client = &mut clients[slot];
    let outcome = client.answer(floor, takes_changes, line, reply)?;
    Ok((outcome, client.may_answer()))
}

/// Has the floor close a session of a client that has left.
fn close_session<F: Floor>(
    floor: &mut F,
    number: u64,
    team: u32,
    session: u32,
    line: &mut Vec<u8>,
    reply: &mut Vec<u8>,
) -> Outcome
    requires line_room { short_limit ≤ vec_capacity line.old }
    requires room { short_limit ≤ vec_capacity reply.old }
    ensures answered { IsAnswered F.answers F.shows floor.old
        (closing_turn number team line.new.items reply.new.items result) floor.new }
    ensures short { length reply.new.items ≤ short_limit }
    ensures within { length line.new.items ≤ waiting_limit }
    ensures capacity { vec_capacity reply.old ≤ vec_capacity reply.new }
    ensures line_capacity { vec_capacity line.old ≤ vec_capacity line.new }
{
    line.clear();
    reply.clear();
    floor.close(team, session, line, reply)
}

/// Makes room for the longest record if changes are taken, and returns whether there is.
fn has_record_room(records: &mut Vec<u8>, takes_changes: bool) -> bool
    ensures items { records.new.items ≡ records.old.items }
    ensures room { result ≡ true → vec_len records.new + 70000 ≤ vec_capacity records.new }
    ensures taken { result ≡ true → takes_changes ≡ true }
{
    if !takes_changes {
        return false;
    }
    records.reserve(RECORD).is_ok()
}

/// Takes a slot that nobody uses from the list of them.
fn take_free(clients: &[Client], free: &mut Vec<usize>) -> Option<usize>
    ensures below { IfSome result (λ slot. slot < length clients.now) }
    ensures free { IfSome result (λ slot. (connection_at slot clients.now).stage ≡ Stage.Free) }
{
    let slot = free.pop()?;
    if slot >= clients.len() {
        return None;
    }
    match clients[slot].stage() {
        Stage::Free => Some(slot),
        Stage::Open => None,
        Stage::Done => None,
        Stage::Leaving => None,
    }
}

/// Lets another connection have a slot.
fn free_client(clients: &mut [Client], slot: usize)
    requires { slot < length clients.old }
    ensures { clients.new ≡ changed_at slot freed clients.old }
{
    let client = &mut clients[slot];
    client.free();
}

/// Adds a slot to a list that has room for it.
fn put_slot(slots: &mut Vec<usize>, slot: usize)
    requires { vec_len slots.old < vec_capacity slots.old }
    ensures { slots.new.items ≡ slots.old.items ++ slot ∷ [] }
{
    if slots.push(slot).is_err() {
        unreachable!();
    }
}

/// Adds a client behind the others, for which there is room.
fn put_client(clients: &mut Vec<Client>, client: Client)
    requires { vec_len clients.old < vec_capacity clients.old }
    ensures { clients.new.items ≡ clients.old.items ++ client ∷ [] }
{
    if clients.push(client).is_err() {
        unreachable!();
    }
}

/// Lets what is held in these slots be sent.
fn release(clients: &mut [Client], slots: &[usize])
    ensures { clients.new ≡ released_at slots.now clients.old }
{
    for slot in slots {
        if *slot < clients.len() {
            let client = &mut clients[*slot];
            client.release();
        }
    }
}

impl Core {
    /// Makes a hub of this many teams, without a client. `Err` if an allocation fails.
    pub fn new(alloc: Global, teams: usize) -> Result<Core, AllocError>
        ensures hub { IfOk result (λ core. core.hub
            ≡ record { made = 0; slots = []; sessions = []; answered = []; records = [] }) }
        ensures turns { IfOk result (λ core. core.turns
            ≡ record { teams = []; clients = replicate teams []; waits = [] }) }
    {
        Ok(Core {
            alloc,
            made: 0,
            clients: Vec::new(alloc),
            free: Vec::new(alloc),
            sessions: Vec::new(alloc),
            answered: Vec::new(alloc),
            records: Vec::new(alloc),
            turns: Turns::new(alloc, teams)?,
            line: Vec::with_capacity(alloc, SHORT)?,
            reply: Vec::with_capacity(alloc, SHORT)?,
        })
    }

    /// Returns the connection in a slot.
    pub fn client(&self, slot: usize) -> Option<&Client>
        ensures some { IfSome result (λ client. client.now ≡ connection_at slot self.now.hub.slots) }
        ensures below { IfSome result (λ client. slot < length self.now.hub.slots) }
        ensures none { IfNone result (length self.now.hub.slots ≤ slot) }
    {
        self.clients.get(slot)
    }

    /// Returns whether a client in a slot has not left it.
    pub fn is_live(&self, slot: usize) -> bool
        ensures below { result ≡ true → slot < length self.now.hub.slots }
        ensures live { slot < length self.now.hub.slots
            → result ≡ is_live (connection_at slot self.now.hub.slots).stage }
    {
        if slot >= self.clients.len() {
            return false;
        }
        match self.clients[slot].stage() {
            Stage::Open => true,
            Stage::Done => true,
            Stage::Leaving => false,
            Stage::Free => false,
        }
    }

    /// Returns the records since the last sync.
    pub fn records(&self) -> &[u8]
        ensures { result.now ≡ self.now.hub.records }
    {
        self.records.as_slice()
    }

    /// Returns the client whose turn it is.
    pub fn next(&self) -> Option<usize>
        ensures { result ≡ next_client self.now.turns }
    {
        let (_, slot) = self.turns.next()?;
        Some(slot)
    }

    /// Takes bytes from the client in a slot, as many as there is room for, and returns their
    /// number. The client waits for its turn. `Err` if an allocation fails; then no byte is taken.
    pub fn comes(&mut self, slot: usize, bytes: &[u8]) -> Result<usize, AllocError>
        requires { slot < length self.old.hub.slots }
        ensures taken { IfOk result (λ n. n
            ≡ min (length bytes.now) (room_of (connection_at slot self.old.hub.slots))) }
        ensures after { IfOk result (λ n. self.new.hub ≡ after self.old.hub (Comes slot (take n bytes.now))) }
        ensures waits { OnOk result (self.new.turns
            ≡ joined (connection_at slot self.old.hub.slots).team slot self.old.turns) }
        ensures err { OnErr result (self.new.hub ≡ self.old.hub) }
    {
        let client = &mut self.clients[slot];
        self.turns.add(client.team() as usize, slot)?;
        client.take_in(bytes)
    }

    /// Notes that this many bytes were sent to the client in a slot, which waits for its turn again.
    /// `Err` if an allocation fails; then it does not wait.
    pub fn sends(&mut self, slot: usize, count: usize) -> Result<(), AllocError>
        requires slot { slot < length self.old.hub.slots }
        requires count { count ≤ length (connection_at slot self.old.hub.slots).ready }
        ensures after { self.new.hub ≡ after self.old.hub (Sends slot count) }
        ensures waits { OnOk result (self.new.turns
            ≡ joined (connection_at slot self.old.hub.slots).team slot self.old.turns) }
    {
        let client = &mut self.clients[slot];
        client.mark_sent(count);
        self.turns.add(client.team() as usize, slot)
    }

    /// Drops what waits of the client in a slot and what was not sent to it, since it is gone. It
    /// waits for its turn, at which its sessions are closed. `Err` if an allocation fails; then
    /// nothing changes.
    pub fn leaves(&mut self, slot: usize) -> Result<(), AllocError>
        requires slot { slot < length self.old.hub.slots }
        requires live { is_live (connection_at slot self.old.hub.slots).stage ≡ true }
        ensures after { OnOk result (self.new.hub ≡ after self.old.hub (Leaves slot)) }
        ensures waits { OnOk result (self.new.turns
            ≡ joined (connection_at slot self.old.hub.slots).team slot self.old.turns) }
        ensures err { OnErr result (self.new.hub ≡ self.old.hub) }
    {
        let client = &mut self.clients[slot];
        self.turns.add(client.team() as usize, slot)?;
        client.leave(self.alloc);
        Ok(())
    }

    /// Lets everything that is held be sent, since the records are on the disk. The slots whose
    /// lines were answered since the last sync are left in the buffer.
    pub fn synced(&mut self, slots: &mut Vec<usize>)
        ensures after { self.new.hub ≡ after self.old.hub Syncs }
        ensures slots { slots.new.items ≡ self.old.hub.answered }
        ensures turns { self.new.turns ≡ self.old.turns }
    {
        release(self.clients.as_mut_slice(), self.answered.as_slice());
        slots.clear();
        swap(&mut self.answered, slots);
        self.records.clear();
    }

    /// Makes a connection to the socket of a team, and returns its slot. `Err` if an allocation
    /// fails; then nothing changes.
    pub fn opens(&mut self, team: u32, access: Access) -> Result<usize, AllocError>
        ensures may { IfOk result (λ slot. May self.old.hub (Opens slot team access)) }
        ensures after { IfOk result (λ slot. self.new.hub ≡ after self.old.hub (Opens slot team access)) }
        ensures err { OnErr result (self.new.hub ≡ self.old.hub) }
    {
        let Some(made) = self.made.checked_add(1) else {
            return Err(AllocError);
        };
        let client = Client::new(self.alloc, self.made, team, access);
        if let Some(slot) = take_free(self.clients.as_slice(), &mut self.free) {
            self.clients[slot] = client;
            self.made = made;
            return Ok(slot);
        }
        let slot = self.clients.len();
        self.clients.reserve(1)?;
        self.turns.grow()?;
        put_client(&mut self.clients, client);
        self.made = made;
        Ok(slot)
    }

    /// Answers the next line of the client whose turn it is.
    fn answer_next<F: Floor>(
        &mut self,
        floor: &mut F,
        takes_changes: bool,
        slot: usize,
    ) -> Result<Progress, AllocError>
        requires next { next_client self.old.turns ≡ Some slot }
        requires slot { slot < length self.old.hub.slots }
        requires waits { may_answer (connection_at slot self.old.hub.slots) ≡ true }
        ensures advances { IfOk result (λ progress.
            Advances (IsAnswered F.answers F.shows) self.old floor.old progress self.new floor.new) }
        ensures untaken { takes_changes ≡ false → self.new.hub.records ≡ self.old.hub.records }
        ensures err { OnErr result (self.new.hub ≡ self.old.hub) }
        ensures turns { OnErr result (self.new.turns ≡ self.old.turns) }
        ensures kept { OnErr result (floor.new ≡ floor.old) }
    {
        self.answered.reserve(1)?;
        self.sessions.reserve(1)?;
        let takes = has_record_room(&mut self.records, takes_changes);
        let number = self.clients[slot].number();
        let team = self.clients[slot].team();
        let (outcome, stays) = answer_client(
            self.clients.as_mut_slice(),
            slot,
            floor,
            takes,
            &mut self.line,
            &mut self.reply,
        )?;
        put_slot(&mut self.answered, slot);
        note_outcome(&mut self.sessions, slot, team, outcome);
        put_record(
            &mut self.records,
            number,
            self.line.as_slice(),
            self.reply.as_slice(),
            outcome,
        );
        self.turns.end_turn(stays);
        Ok(Progress::Answered {
            slot,
            outcome,
            stays,
        })
    }

    /// Closes a session of the client that has left and whose turn it is, or frees its slot.
    fn close_next<F: Floor>(
        &mut self,
        floor: &mut F,
        takes_changes: bool,
        slot: usize,
    ) -> Result<Progress, AllocError>
        requires next { next_client self.old.turns ≡ Some slot }
        requires slot { slot < length self.old.hub.slots }
        requires left { (connection_at slot self.old.hub.slots).stage ≡ Stage.Leaving }
        ensures advances { IfOk result (λ progress.
            Advances (IsAnswered F.answers F.shows) self.old floor.old progress self.new floor.new) }
        ensures untaken { takes_changes ≡ false → self.new.hub.records ≡ self.old.hub.records }
        ensures err { OnErr result (self.new.hub ≡ self.old.hub) }
        ensures turns { OnErr result (self.new.turns ≡ self.old.turns) }
        ensures kept { OnErr result (floor.new ≡ floor.old) }
    {
        let Some(own) = session_of(self.sessions.as_slice(), slot) else {
            self.free.push(slot)?;
            free_client(self.clients.as_mut_slice(), slot);
            self.turns.end_turn(false);
            return Ok(Progress::Freed { slot });
        };
        if !takes_changes {
            self.turns.end_turn(true);
            return Ok(Progress::Passed { slot, stays: true });
        }
        self.records.reserve(RECORD)?;
        let number = self.clients[slot].number();
        let team = self.clients[slot].team();
        let outcome = close_session(
            floor,
            number,
            team,
            own.session,
            &mut self.line,
            &mut self.reply,
        );
        remove_session(&mut self.sessions, own.team, own.session);
        put_record(
            &mut self.records,
            number,
            self.line.as_slice(),
            self.reply.as_slice(),
            outcome,
        );
        self.turns.end_turn(true);
        Ok(Progress::Closed {
            slot,
            session: own,
            outcome,
        })
    }

    /// Takes one turn: answers a line of the client whose turn it is, closes a session of a client
    /// that has left, or frees its slot. `Err` if there is no memory for it; then nothing changes.
    ///
    /// If changes are not taken, because the journal has no room, a line that may be a change is
    /// refused as out of memory, and no session is closed.
    pub fn answer<F: Floor>(
        &mut self,
        floor: &mut F,
        takes_changes: bool,
    ) -> Result<Progress, AllocError>
        ensures advances { IfOk result (λ progress.
            Advances (IsAnswered F.answers F.shows) self.old floor.old progress self.new floor.new) }
        ensures untaken { takes_changes ≡ false → self.new.hub.records ≡ self.old.hub.records }
        ensures err { OnErr result (self.new.hub ≡ self.old.hub) }
        ensures turns { OnErr result (self.new.turns ≡ self.old.turns) }
        ensures kept { OnErr result (floor.new ≡ floor.old) }
    {
        let Some(slot) = self.next() else {
            return Ok(Progress::Idle);
        };
        if slot >= self.clients.len() {
            self.turns.end_turn(false);
            return Ok(Progress::Passed { slot, stays: false });
        }
        if self.clients[slot].may_answer() {
            return self.answer_next(floor, takes_changes, slot);
        }
        match self.clients[slot].stage() {
            Stage::Leaving => return self.close_next(floor, takes_changes, slot),
            Stage::Open => {}
            Stage::Done => {}
            Stage::Free => {}
        }
        self.turns.end_turn(false);
        Ok(Progress::Passed { slot, stays: false })
    }
}
