//! A wire in memory that follows a script, for other modules.

ghost use Rattle.lf_hub_wire.specs.Results.{CountsRead, CountsWritten};

use lf_hub_clients::Access;
use lf_hub_wire::{
    ACCEPTED, Arrival, CAME, CLOSED, ENDED, Incoming, NUMBERED, ORDERED, Outgoing, Record, SENT,
    TOLD, Wire, code_of,
};
use std::alloc::{AllocError, Global};

/// What happens on a wire.
#[derive(Clone, Copy)]
pub(crate) enum Step<'a> {
    /// A client connects to the socket of a team.
    Connects { team: u32, access: Access },
    /// A client sends bytes.
    Says { number: usize, bytes: &'a [u8] },
    /// A client sends no more.
    Ends { number: usize },
    /// The connection of a client fails.
    Breaks { number: usize },
    /// A client takes no more bytes.
    Stalls { number: usize },
    /// The operator sends a line.
    Orders { line: &'a [u8] },
}

/// A client of the script.
#[derive(Drop)]
pub(crate) struct Peer {
    input: Vec<u8>,
    pub(crate) output: Vec<u8>,
    sends_no_more: bool,
    has_ended: bool,
    is_broken: bool,
    is_stalled: bool,
    pub(crate) is_closed: bool,
}

/// A wire on which the steps of a script happen, one before each round. Then the operator stops the
/// hub.
#[derive(Drop)]
pub(crate) struct Script<'a> {
    alloc: Global,
    steps: &'a [Step<'a>],
    next: usize,
    arrival: Option<(u32, Access)>,
    order: &'a [u8],
    pub(crate) peers: Vec<Peer>,
    /// The replies to the operator.
    pub(crate) told: Vec<u8>,
    clients: Record,
    orders: Record,
}

/// A connection of the script.
#[derive(Drop)]
pub(crate) struct Nobody;

impl<'a> Script<'a> {
    /// Makes a wire for these steps.
    pub(crate) fn new(alloc: Global, steps: &'a [Step<'a>]) -> Script<'a> {
        Script {
            alloc,
            steps,
            next: 0,
            arrival: None,
            order: b"",
            peers: Vec::new(alloc),
            told: Vec::new(alloc),
            clients: Record::new(),
            orders: Record::new(),
        }
    }
}

/// Returns a client that has sent nothing.
fn new_peer(alloc: Global) -> Peer {
    Peer {
        input: Vec::new(alloc),
        output: Vec::new(alloc),
        sends_no_more: false,
        has_ended: false,
        is_broken: false,
        is_stalled: false,
        is_closed: false,
    }
}

/// Has a step of a client happen.
fn step_of(peers: &mut [Peer], step: Step<'_>) -> Result<(), AllocError> {
    match step {
        Step::Says { number, bytes } => {
            if number < peers.len() {
                peers[number].input.extend_from_slice(bytes)?;
            }
        }
        Step::Ends { number } => {
            if number < peers.len() {
                peers[number].sends_no_more = true;
            }
        }
        Step::Breaks { number } => {
            if number < peers.len() {
                peers[number].is_broken = true;
            }
        }
        Step::Stalls { number } => {
            if number < peers.len() {
                peers[number].is_stalled = true;
            }
        }
        Step::Connects { .. } => {}
        Step::Orders { .. } => {}
    }
    Ok(())
}

/// Reads what a client has sent.
fn read_peer(peer: &mut Peer, buffer: &mut [u8]) -> Incoming
    ensures { CountsRead result buffer.new }
{
    if peer.is_broken {
        return Incoming::Failed;
    }
    let count = buffer.len().min(peer.input.len());
    if count > 0 {
        buffer[..count].copy_from_slice(&peer.input.as_slice()[..count]);
        let rest = peer.input.len() - count;
        peer.input.as_mut_slice().copy_within(count.., 0);
        peer.input.truncate(rest);
        return Incoming::Bytes { count };
    }
    if peer.sends_no_more && !peer.has_ended {
        peer.has_ended = true;
        return Incoming::End;
    }
    Incoming::Nothing
}

/// Sends bytes to a client.
fn write_peer(peer: &mut Peer, bytes: &[u8]) -> Outgoing
    ensures { CountsWritten result bytes.now }
{
    if peer.is_broken {
        return Outgoing::Failed;
    }
    if peer.is_stalled || peer.output.extend_from_slice(bytes).is_err() {
        return Outgoing::Nothing;
    }
    Outgoing::Bytes { count: bytes.len() }
}

impl<'a> Wire for Script<'a> {
    type Stream = Nobody;

    ghost calls = { λ s. s.clients.calls };

    ghost orders = { λ s. s.orders.calls };

    fn wait(&mut self, _limit: u32) {
        if self.next >= self.steps.len() {
            self.order = b"stop";
            return;
        }
        let step = self.steps[self.next];
        self.next += 1;
        self.order = b"";
        match step {
            Step::Connects { team, access } => self.arrival = Some((team, access)),
            Step::Orders { line } => self.order = line,
            _ => {
                let _ = step_of(&mut self.peers, step);
            }
        }
    }

    fn accept(&mut self) -> Option<Arrival<Nobody>> {
        let (team, access) = self.arrival?;
        self.arrival = None;
        self.clients
            .note(&[ACCEPTED, u64::from(team), code_of(access)], &[]);
        Some(Arrival {
            team,
            access,
            stream: Nobody,
        })
    }

    fn seat(&mut self, number: u64, _stream: Nobody) {
        let _ = self.peers.push(new_peer(self.alloc));
        self.clients.note(&[NUMBERED, number], &[]);
    }

    fn read(&mut self, number: u64, buffer: &mut [u8]) -> Incoming {
        let answer = match self.peers.get_mut(number as usize) {
            Some(peer) => read_peer(peer, buffer),
            None => Incoming::Failed,
        };
        match answer {
            Incoming::Bytes { count } => self.clients.note(&[CAME, number], &buffer[..count]),
            Incoming::End => self.clients.note(&[ENDED, number], &[]),
            Incoming::Nothing => {}
            Incoming::Failed => {}
        }
        answer
    }

    fn has_ended(&self, number: u64) -> bool {
        match self.peers.get(number as usize) {
            Some(peer) => peer.has_ended,
            None => true,
        }
    }

    fn write(&mut self, number: u64, bytes: &[u8]) -> Outgoing {
        let answer = match self.peers.get_mut(number as usize) {
            Some(peer) => write_peer(peer, bytes),
            None => Outgoing::Failed,
        };
        match answer {
            Outgoing::Bytes { count } => self.clients.note(&[SENT, number], &bytes[..count]),
            Outgoing::Nothing => {}
            Outgoing::Failed => {}
        }
        answer
    }

    fn close(&mut self, number: u64) {
        if let Some(peer) = self.peers.get_mut(number as usize) {
            peer.is_closed = true;
        }
        self.clients.note(&[CLOSED, number], &[]);
    }

    fn take_order(&mut self, line: &mut Vec<u8>) -> bool {
        if self.order.is_empty() {
            return false;
        }
        line.clear();
        if line.extend_from_slice(self.order).is_err() {
            return false;
        }
        self.order = b"";
        self.orders.note(&[ORDERED], line);
        true
    }

    fn answer_order(&mut self, reply: &[u8]) {
        let _ = self.told.extend_from_slice(reply);
        self.orders.note(&[TOLD], reply);
    }
}
