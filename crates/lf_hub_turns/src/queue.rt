//! A queue of numbers whose first one has its turn.

ghost use Rattle.std.specs.Prelude.{◌≡◌, ◌++◌, ◌∷◌, [], ℕ, List, OnErr, OnOk};
ghost use Rattle.lf_hub_turns.specs.Queues.{first_done, first_in, is_none};

use std::alloc::{AllocError, Global};
use std::collections::VecDeque;
use std::marker::Model;

/// A queue of numbers. Contracts see the list of them.
#[derive(Drop)]
pub(crate) struct Queue {
    numbers: VecDeque<usize>,
}

impl Model for Queue {
    ghost use Rattle.std.specs.Prelude.{List, ℕ};

    ghost Value = { List ℕ };

    ghost view = { λ q. q.numbers.items };
}

impl Queue {
    /// Makes an empty queue.
    pub(crate) fn new(alloc: Global) -> Queue
        ensures { result ≡ [] }
    {
        Queue {
            numbers: VecDeque::new(alloc),
        }
    }

    /// Returns whether the queue is empty.
    pub(crate) fn is_empty(&self) -> bool
        ensures { result ≡ is_none self.now }
    {
        self.numbers.is_empty()
    }

    /// Returns the first number.
    pub(crate) fn first(&self) -> Option<usize>
        ensures { result ≡ first_in self.now }
    {
        self.numbers.front().copied()
    }

    /// Adds a number at the end. `Err` if an allocation fails; then nothing changes.
    pub(crate) fn add(&mut self, number: usize) -> Result<(), AllocError>
        ensures ok { OnOk result (self.new ≡ self.old ++ number ∷ []) }
        ensures err { OnErr result (self.new ≡ self.old) }
    {
        self.numbers.push_back(number)?;
        Ok(())
    }

    /// Removes the last number.
    pub(crate) fn remove_last(&mut self)
        ensures { (before : List ℕ) (x : ℕ) → self.old ≡ before ++ x ∷ [] → self.new ≡ before }
    {
        self.numbers.pop_back();
    }

    /// Moves the first number to the end if it stays, and removes it otherwise.
    pub(crate) fn end_first(&mut self, stays: bool)
        ensures { self.new ≡ first_done stays self.old }
    {
        if self.numbers.is_empty() {
            return;
        }
        if stays {
            self.numbers.rotate_left(1);
            return;
        }
        self.numbers.pop_front();
    }
}
