//! A list of calls that only clauses read.

ghost use Rattle.std.specs.Prelude.{◌≡◌, List, [], ◌∷◌, ◌++◌};
ghost use Rattle.std.specs.Borrow.{ftrue};
ghost use Rattle.lf_hub_wire.specs.Calls.{Call, call_of, code_of};

use lf_hub_clients::Access;
use std::marker::{Model, PhantomData};

/// The kind of a note: a client connects to the socket of a team.
pub const ACCEPTED: u64 = 0;

/// The kind of a note: a connection gets its number.
pub const NUMBERED: u64 = 1;

/// The kind of a note: bytes come from a client.
pub const CAME: u64 = 2;

/// The kind of a note: a client sends no more.
pub const ENDED: u64 = 3;

/// The kind of a note: bytes are sent to a client.
pub const SENT: u64 = 4;

/// The kind of a note: a connection is closed.
pub const CLOSED: u64 = 5;

/// The kind of a note: a line comes from the operator.
pub const ORDERED: u64 = 6;

/// The kind of a note: the operator is sent a reply.
pub const TOLD: u64 = 7;

/// Returns the number of an access in a note.
pub fn code_of(access: Access) -> u64
    ensures { result ≡ code_of access }
{
    match access {
        Access::Changes => 0,
        Access::Queries => 1,
    }
}

/// The calls of a wire so far. It has no byte in memory.
#[derive(Drop)]
pub struct Record {
    marker: PhantomData<u8>,
    pub ghost calls: { List Call },
}

impl Model for Record {
    ghost also_owns = { λ _. ftrue };
}

impl Record {
    /// Makes a record without a call.
    pub fn new() -> Record
        ensures { result.calls ≡ [] }
    {
        Record {
            marker: PhantomData,
        }
    }

    /// Notes a call. The numbers are its kind, then a team or the number of a connection, then an
    /// access.
    pub fn note(&mut self, _numbers: &[u64], _bytes: &[u8])
        ensures { self.new.calls ≡ self.old.calls ++ call_of _numbers.now _bytes.now ∷ [] }
    {}
}
