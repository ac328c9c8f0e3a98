//! Lists of requests that own their names.

ghost use Rattle.std.specs.Prelude.{◌≡◌, [], ◌∷◌, ◌++◌, ◌↔◌, IsTrue, OnOk, OnErr, length, slice_get, option_map};
ghost use Rattle.lf_proto.specs.Commands.{command_with_names};

use crate::request::{Command, Request};
use lf_units::Name;
use std::alloc::{AllocError, Global};
use std::marker::Model;

/// Requests in order, each a copy of one that was pushed. Only `push` allocates. Contracts see the
/// list of requests.
#[derive(Drop)]
pub struct RequestList {
    alloc: Global,
    commands: Vec<Command<Name>>,
}

impl Model for RequestList {
    ghost use Rattle.std.specs.Prelude.{List, ℕ};
    ghost use Rattle.lf_floorplan.specs.declared.place.Place.{Place};
    ghost use Rattle.lf_proto.specs.declared.request.Command.{Command};

    ghost Value = { List (Command (List ℕ) Place) };

    ghost view = { λ l. l.commands.items };
}

impl RequestList {
    /// Makes a list without requests.
    pub fn new(alloc: Global) -> RequestList
        ensures { result ≡ [] }
    {
        RequestList {
            alloc,
            commands: Vec::new(alloc),
        }
    }

    /// Appends a copy of the request.
    ///
    /// `Err` if an allocation fails; then the list is unchanged.
    pub fn push(&mut self, request: &Request) -> Result<(), AllocError>
        ensures ok { OnOk result (self.new ≡ self.old ++ command_with_names request.now ∷ []) }
        ensures err { OnErr result (self.new ≡ self.old) }
    {
        let command = request.to_owned(self.alloc)?;
        self.commands.push(command)?;
        Ok(())
    }

    /// Returns the number of requests.
    pub fn len(&self) -> usize
        ensures { result ≡ length self.now }
    {
        self.commands.len()
    }

    /// Returns true if there are no requests.
    pub fn is_empty(&self) -> bool
        ensures { IsTrue result ↔ (self.now ≡ []) }
    {
        self.commands.is_empty()
    }

    /// Returns the request at a position, the first at 0. `None` if the position is `len` or more.
    pub fn request(&self, position: usize) -> Option<Request<'_>>
        ensures { option_map command_with_names result ≡ slice_get self.now position }
    {
        match self.commands.get(position) {
            Some(command) => Some(command.borrowed()),
            None => None,
        }
    }
}
