//! The wire of a process. Each method makes calls of the system, and then notes them.

ghost use Rattle.std.specs.Prelude.{◌≡◌, [], IfOk};
ghost use Rattle.lf_hub_wire.specs.Results.{CountsRead, CountsWritten};

use crate::doors::{Door, Listener, listen_to_operator, listen_to_team};
use crate::record::{
    ACCEPTED, CAME, CLOSED, ENDED, NUMBERED, ORDERED, Record, SENT, TOLD, code_of,
};
use crate::streams::Stream;
use crate::wire::{Arrival, Incoming, Outgoing, Wire};
use lf_hub_clients::{Access, LineQueue};
use mio::event::Event;
use mio::net::{UnixListener, UnixStream};
use mio::{Events, Interest, Poll, Token};
use std::collections::BTreeMap;
use std::io;
use std::io::ErrorKind;
use std::time::Duration;

/// The tokens of listeners come first, then those of the operator, then those of clients.
const OPERATOR_DOOR: usize = 1 << 20;

const OPERATOR: usize = OPERATOR_DOOR + 1;

const CLIENTS: usize = OPERATOR_DOOR + 2;

/// The most events that one wait reports.
const EVENTS: usize = 1024;

/// The operator's connection.
#[derive(Drop)]
struct Operator {
    stream: Stream,
    lines: LineQueue,
}

/// Unix sockets in a folder: those of teams, and that of the operator.
#[derive(Drop)]
pub struct Sockets<'a> {
    rt: &'a HostRuntime,
    poll: Poll,
    events: Events,
    listeners: Vec<Listener>,
    /// The listener that is asked first.
    first: usize,
    operator_door: UnixListener,
    /// Whether an operator may wait.
    is_operator_waiting: bool,
    operator: Option<Operator>,
    streams: BTreeMap<u64, Stream>,
    most: usize,
    clients: Record,
    orders: Record,
}

impl<'a> Sockets<'a> {
    /// Listens to the sockets of teams and of the operator in a folder, for at most this many clients
    /// at once. `Err` if a socket cannot be made, or if another process listens to it.
    pub fn open(
        rt: &'a HostRuntime,
        folder: &str,
        doors: &[Door<'_>],
        most: usize,
    ) -> io::Result<Sockets<'a>>
        ensures calls { IfOk result (λ sockets. sockets.clients.calls ≡ []) }
        ensures orders { IfOk result (λ sockets. sockets.orders.calls ≡ []) }
    {
        let poll = Poll::new(rt)?;
        let mut listeners = Vec::new(rt.alloc());
        for door in doors {
            listeners.push(listen_to_team(rt, folder, door, Access::Changes)?)?;
            listeners.push(listen_to_team(rt, folder, door, Access::Queries)?)?;
        }
        let mut operator_door = listen_to_operator(rt, folder)?;
        watch(&poll, &mut listeners, &mut operator_door)?;
        Ok(Sockets {
            rt,
            poll,
            events: Events::with_capacity(rt.alloc(), EVENTS)?,
            listeners,
            first: 0,
            operator_door,
            is_operator_waiting: true,
            operator: None,
            streams: BTreeMap::new(rt.alloc()),
            most,
            clients: Record::new(),
            orders: Record::new(),
        })
    }
}

/// Has listeners reported.
fn watch(
    poll: &Poll,
    listeners: &mut [Listener],
    operator_door: &mut UnixListener,
) -> io::Result<()> {
    for (at, listener) in listeners.iter_mut().enumerate() {
        poll.registry()
            .register(&mut listener.inner, Token(at), Interest::READABLE)?;
    }
    poll.registry()
        .register(operator_door, Token(OPERATOR_DOOR), Interest::READABLE)
}

/// Notes that a socket is ready.
fn mark(
    event: &Event,
    listeners: &mut [Listener],
    is_operator_waiting: &mut bool,
    operator: &mut Option<Operator>,
    streams: &mut BTreeMap<u64, Stream>,
) {
    let token = event.token().0;
    let is_readable = event.is_readable() || event.is_read_closed();
    let is_writable = event.is_writable() || event.is_write_closed();
    if token < listeners.len() {
        listeners[token].is_ready = true;
        return;
    }
    if token == OPERATOR_DOOR {
        *is_operator_waiting = true;
        return;
    }
    if token == OPERATOR {
        if let Some(operator) = operator {
            operator.stream.is_reported(is_readable, is_writable);
        }
        return;
    }
    if token < CLIENTS {
        return;
    }
    if let Some(stream) = streams.get_mut(&((token - CLIENTS) as u64)) {
        stream.is_reported(is_readable, is_writable);
    }
}

/// Accepts a connection of a listener. `None` if nobody waits, or if no descriptor is left; then the
/// client goes on waiting.
fn accept_from(listener: &mut Listener) -> Option<Arrival<UnixStream>> {
    if !listener.is_ready {
        return None;
    }
    match listener.inner.accept() {
        Ok((stream, _)) => Some(Arrival {
            team: listener.team,
            access: listener.access,
            stream,
        }),
        Err(error) => {
            if error.kind() == ErrorKind::WouldBlock {
                listener.is_ready = false;
            }
            None
        }
    }
}

/// Accepts a connection of the next listener where somebody waits.
fn accept_next(listeners: &mut [Listener], first: &mut usize) -> Option<Arrival<UnixStream>> {
    for _ in 0..listeners.len() {
        if *first >= listeners.len() {
            *first = 0;
        }
        let found = accept_from(&mut listeners[*first]);
        *first += 1;
        if found.is_some() {
            return found;
        }
    }
    None
}

/// Has a connection reported, and keeps it under its number. If the system refuses, it is closed.
fn admit(poll: &Poll, streams: &mut BTreeMap<u64, Stream>, number: u64, stream: UnixStream) {
    let mut stream = stream;
    let token = Token((number as usize).wrapping_add(CLIENTS));
    let interest = Interest::READABLE | Interest::WRITABLE;
    if poll
        .registry()
        .register(&mut stream, token, interest)
        .is_ok()
    {
        let _ = streams.insert(number, Stream::new(stream));
    }
}

/// Reads from the connection with this number.
fn read_from(streams: &mut BTreeMap<u64, Stream>, number: u64, buffer: &mut [u8]) -> Incoming
    ensures { CountsRead result buffer.new }
{
    match streams.get_mut(&number) {
        Some(stream) => stream.read(buffer),
        None => Incoming::Failed,
    }
}

/// Writes to the connection with this number.
fn write_to(
    rt: &HostRuntime,
    streams: &mut BTreeMap<u64, Stream>,
    number: u64,
    bytes: &[u8],
) -> Outgoing
    ensures { CountsWritten result bytes.now }
{
    match streams.get_mut(&number) {
        Some(stream) => stream.write(rt, bytes),
        None => Outgoing::Failed,
    }
}

/// Accepts the operator's next connection, which takes the place of the one before.
fn accept_operator(
    rt: &HostRuntime,
    poll: &Poll,
    door: &UnixListener,
    is_waiting: &mut bool,
    operator: &mut Option<Operator>,
) {
    if !*is_waiting {
        return;
    }
    match door.accept() {
        Ok((stream, _)) => {
            let mut stream = stream;
            let interest = Interest::READABLE | Interest::WRITABLE;
            if poll
                .registry()
                .register(&mut stream, Token(OPERATOR), interest)
                .is_ok()
            {
                *operator = Some(Operator {
                    stream: Stream::new(stream),
                    lines: LineQueue::new(rt.alloc()),
                });
            }
        }
        Err(error) => {
            if error.kind() == ErrorKind::WouldBlock {
                *is_waiting = false;
            }
        }
    }
}

/// Moves the operator's next line into the buffer, and returns whether there was one.
fn next_order(operator: &mut Option<Operator>, line: &mut Vec<u8>) -> bool {
    let Some(operator) = operator else {
        return false;
    };
    let mut buffer = [0; 1024];
    let room = operator.lines.room().min(buffer.len());
    match operator.stream.read(&mut buffer[..room]) {
        Incoming::Bytes { count } => {
            let _ = operator.lines.take_in(&buffer[..count]);
        }
        Incoming::Nothing => {}
        Incoming::End => {}
        Incoming::Failed => {}
    }
    matches!(operator.lines.take_line(line), Ok(true))
}

impl<'a> Wire for Sockets<'a> {
    type Stream = UnixStream;

    ghost calls = { λ s. s.clients.calls };

    ghost orders = { λ s. s.orders.calls };

    fn wait(&mut self, limit: u32) {
        let limit = Duration::from_millis(u64::from(limit));
        if self.poll.poll(&mut self.events, Some(limit)).is_err() {
            return;
        }
        for event in self.events.iter() {
            mark(
                event,
                &mut self.listeners,
                &mut self.is_operator_waiting,
                &mut self.operator,
                &mut self.streams,
            );
        }
    }

    fn accept(&mut self) -> Option<Arrival<UnixStream>> {
        if self.streams.len() >= self.most {
            return None;
        }
        let arrival = accept_next(&mut self.listeners, &mut self.first)?;
        let team = u64::from(arrival.team);
        self.clients
            .note(&[ACCEPTED, team, code_of(arrival.access)], &[]);
        Some(arrival)
    }

    fn seat(&mut self, number: u64, stream: UnixStream) {
        admit(&self.poll, &mut self.streams, number, stream);
        self.clients.note(&[NUMBERED, number], &[]);
    }

    fn read(&mut self, number: u64, buffer: &mut [u8]) -> Incoming {
        let answer = read_from(&mut self.streams, number, buffer);
        match answer {
            Incoming::Bytes { count } => self.clients.note(&[CAME, number], &buffer[..count]),
            Incoming::End => self.clients.note(&[ENDED, number], &[]),
            Incoming::Nothing => {}
            Incoming::Failed => {}
        }
        answer
    }

    fn has_ended(&self, number: u64) -> bool {
        match self.streams.get(&number) {
            Some(stream) => stream.has_ended(),
            None => true,
        }
    }

    fn write(&mut self, number: u64, bytes: &[u8]) -> Outgoing {
        let answer = write_to(self.rt, &mut self.streams, number, bytes);
        match answer {
            Outgoing::Bytes { count } => self.clients.note(&[SENT, number], &bytes[..count]),
            Outgoing::Nothing => {}
            Outgoing::Failed => {}
        }
        answer
    }

    fn close(&mut self, number: u64) {
        let _ = self.streams.remove(&number);
        self.clients.note(&[CLOSED, number], &[]);
    }

    fn take_order(&mut self, line: &mut Vec<u8>) -> bool {
        accept_operator(
            self.rt,
            &self.poll,
            &self.operator_door,
            &mut self.is_operator_waiting,
            &mut self.operator,
        );
        let is_there = next_order(&mut self.operator, line);
        if is_there {
            self.orders.note(&[ORDERED], line);
        }
        is_there
    }

    fn answer_order(&mut self, reply: &[u8]) {
        if let Some(operator) = &mut self.operator {
            let _ = operator.stream.write(self.rt, reply);
        }
        self.orders.note(&[TOLD], reply);
    }
}
