//! What a hub needs of sockets.

ghost use Rattle.std.specs.Prelude.{◌≡◌, ◌++◌, ◌∷◌, [], List, IfNone, IfSome, true, false};
ghost use Rattle.lf_hub_wire.specs.Calls.{Call, Accepted, Closed, Numbered, Ordered, Told};
ghost use Rattle.lf_hub_wire.specs.Results.{Reads, Writes};

use lf_hub_clients::Access;

/// A client that has connected.
#[derive(Drop)]
pub struct Arrival<S> {
    /// The team of the socket to which it connected.
    pub team: u32,
    /// What it may do by this socket.
    pub access: Access,
    /// The connection.
    pub stream: S,
}

/// What a read has brought.
#[derive(Clone, Copy, Debug, PartialEq, Eq)]
pub enum Incoming {
    /// This many bytes, at least one.
    Bytes { count: usize },
    /// No byte yet.
    Nothing,
    /// The client sends no more.
    End,
    /// The connection has failed.
    Failed,
}

/// What a write has done.
#[derive(Clone, Copy, Debug, PartialEq, Eq)]
pub enum Outgoing {
    /// This many bytes were sent.
    Bytes { count: usize },
    /// The client takes no byte now.
    Nothing,
    /// The connection has failed.
    Failed,
}

/// The connections of a hub's clients and of its operator. No call waits but `wait`.
pub trait Wire {
    ghost use Rattle.std.specs.Prelude.{◌≡◌, ◌++◌, ◌∷◌, [], List, IfNone, IfSome, true, false};
    ghost use Rattle.lf_hub_wire.specs.Calls.{Call, Accepted, Closed, Numbered, Ordered, Told};
    ghost use Rattle.lf_hub_wire.specs.Results.{Reads, Writes};

    /// An accepted connection that has no number yet.
    type Stream: Drop;

    /// The calls about clients so far.
    ghost calls: { Self → List Call };

    /// The calls about the operator so far.
    ghost orders: { Self → List Call };

    /// Waits until something is ready, at most this many milliseconds.
    fn wait(&mut self, limit: u32)
        ensures calls { calls self.new ≡ calls self.old }
        ensures orders { orders self.new ≡ orders self.old };

    /// Accepts a connection. `None` if nobody waits, or if no more connections are possible now.
    fn accept(&mut self) -> Option<Arrival<Self::Stream>>
        ensures some { IfSome result (λ arrival. calls self.new
            ≡ calls self.old ++ Accepted arrival.team arrival.access ∷ []) }
        ensures none { IfNone result (calls self.new ≡ calls self.old) }
        ensures orders { orders self.new ≡ orders self.old };

    /// Gives an accepted connection its number, by which it is named from now on.
    fn seat(&mut self, number: u64, stream: Self::Stream)
        ensures calls { calls self.new ≡ calls self.old ++ Numbered number ∷ [] }
        ensures orders { orders self.new ≡ orders self.old };

    /// Reads what the client has sent into the buffer.
    fn read(&mut self, number: u64, buffer: &mut [u8]) -> Incoming
        ensures calls { Reads number buffer.new result (calls self.old) (calls self.new) }
        ensures orders { orders self.new ≡ orders self.old };

    /// Returns whether the client sends no more.
    fn has_ended(&self, number: u64) -> bool;

    /// Sends the client as many of the bytes as it takes now.
    fn write(&mut self, number: u64, bytes: &[u8]) -> Outgoing
        ensures calls { Writes number bytes.now result (calls self.old) (calls self.new) }
        ensures orders { orders self.new ≡ orders self.old };

    /// Closes the connection.
    fn close(&mut self, number: u64)
        ensures calls { calls self.new ≡ calls self.old ++ Closed number ∷ [] }
        ensures orders { orders self.new ≡ orders self.old };

    /// Moves the operator's next line into the buffer, and returns whether there was one.
    fn take_order(&mut self, line: &mut Vec<u8>) -> bool
        ensures some { result ≡ true → orders self.new ≡ orders self.old ++ Ordered line.new.items ∷ [] }
        ensures none { result ≡ false → orders self.new ≡ orders self.old }
        ensures calls { calls self.new ≡ calls self.old };

    /// Sends the operator a reply, if it can take it now.
    fn answer_order(&mut self, reply: &[u8])
        ensures orders { orders self.new ≡ orders self.old ++ Told reply.now ∷ [] }
        ensures calls { calls self.new ≡ calls self.old };
}
