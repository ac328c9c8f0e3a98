//! Whose turn it is among teams, and among the clients of a team.

ghost use Rattle.std.specs.Prelude.{◌≡◌, ◌<◌, ◌++◌, ◌∷◌, [], ℕ, List, IfOk, OnErr, OnOk, false, not, true, length, replicate, slice_index_or, slice_set};
ghost use Rattle.lf_hub_turns.specs.Queues.{Queues, first_done, first_in, is_none, joined, next_turn, turn_done};

use crate::queue::Queue;
use std::alloc::{AllocError, Global};
use std::marker::Model;

/// The teams that wait, in the order of their turns, and of each team its clients that wait.
/// Contracts see the queues, and whether each client waits.
#[derive(Drop)]
pub struct Turns {
    teams: Queue,
    clients: Vec<Queue>,
    waits: Vec<bool>,
}

impl Model for Turns {
    ghost use Rattle.lf_hub_turns.specs.Queues.{Queues};

    ghost Value = { Queues };

    ghost view = { λ t. record { teams = t.teams; clients = t.clients.items; waits = t.waits.items } };
}

/// Returns the first client of a team.
fn first_client(clients: &[Queue], team: usize) -> Option<usize>
    ensures { result ≡ first_in (slice_index_or clients.now team []) }
{
    clients.get(team)?.first()
}

/// Ends the turn of a team's first client, and returns whether a client of the team still waits.
fn end_client(clients: &mut [Queue], team: usize, stays: bool) -> bool
    requires { team < length clients.old }
    ensures after { clients.new ≡ slice_set clients.old team (first_done stays (slice_index_or clients.old team [])) }
    ensures more { result ≡ not (is_none (first_done stays (slice_index_or clients.old team []))) }
{
    let queue = &mut clients[team];
    queue.end_first(stays);
    !queue.is_empty()
}

/// Adds a client at the end of its team's queue. `Err` if an allocation fails; then nothing changes.
fn add_client(clients: &mut [Queue], team: usize, client: usize) -> Result<(), AllocError>
    requires { team < length clients.old }
    ensures ok { OnOk result
        (clients.new ≡ slice_set clients.old team (slice_index_or clients.old team [] ++ client ∷ [])) }
    ensures err { OnErr result (clients.new ≡ clients.old) }
{
    let queue = &mut clients[team];
    queue.add(client)
}

/// Makes this many empty queues. `Err` if an allocation fails.
#[tactic(auto, using(crate::proofs::Lists::copies_push))]
fn empty_queues(alloc: Global, count: usize) -> Result<Vec<Queue>, AllocError>
    ensures { IfOk result (λ queues. queues.items ≡ replicate count []) }
{
    let mut queues = Vec::new(alloc);
    for _ in 0..count {
        queues.push(Queue::new(alloc))?;
    }
    Ok(queues)
}

impl Turns {
    /// Makes the queues of this many teams, without a client. `Err` if an allocation fails.
    pub fn new(alloc: Global, teams: usize) -> Result<Turns, AllocError>
        ensures { IfOk result (λ turns. turns ≡ record { teams = []; clients = replicate teams []; waits = [] }) }
    {
        Ok(Turns {
            teams: Queue::new(alloc),
            clients: empty_queues(alloc, teams)?,
            waits: Vec::new(alloc),
        })
    }

    /// Adds a client that does not wait. `Err` if an allocation fails; then nothing changes.
    pub fn grow(&mut self) -> Result<(), AllocError>
        ensures ok { OnOk result (self.new ≡ record self.old { waits = self.old.waits ++ false ∷ [] }) }
        ensures err { OnErr result (self.new ≡ self.old) }
    {
        self.waits.push(false)?;
        Ok(())
    }

    /// Has a client wait, behind the clients of its team that do already. Nothing changes if it waits
    /// already, if there is no such team or client, or if an allocation fails, with `Err`.
    pub fn add(&mut self, team: usize, client: usize) -> Result<(), AllocError>
        ensures ok { OnOk result (self.new ≡ joined team client self.old) }
        ensures err { OnErr result (self.new ≡ self.old) }
    {
        if team >= self.clients.len() || client >= self.waits.len() || self.waits[client] {
            return Ok(());
        }
        let is_first = first_client(self.clients.as_slice(), team).is_none();
        if is_first {
            self.teams.add(team)?;
        }
        match add_client(self.clients.as_mut_slice(), team, client) {
            Ok(()) => {}
            Err(error) => {
                if is_first {
                    self.teams.remove_last();
                }
                return Err(error);
            }
        }
        self.waits[client] = true;
        Ok(())
    }

    /// Returns the team and the client whose turn it is.
    pub fn next(&self) -> Option<(usize, usize)>
        ensures { result ≡ next_turn self.now }
    {
        let team = self.teams.first()?;
        let client = first_client(self.clients.as_slice(), team)?;
        Some((team, client))
    }

    /// Ends the turn. Its client waits on, behind the others of its team, if it stays.
    pub fn end_turn(&mut self, stays: bool)
        ensures { self.new ≡ turn_done stays self.old }
    {
        let Some((team, client)) = self.next() else {
            return;
        };
        if team >= self.clients.len() {
            unreachable!();
        }
        let more = end_client(self.clients.as_mut_slice(), team, stays);
        self.teams.end_first(more);
        if client < self.waits.len() {
            self.waits[client] = stays;
        }
    }
}
