//! Numbers that look random. They are the same in each run.

ghost use Rattle.std.specs.Prelude.{◌<◌};

/// The state from which the next number is computed, which is not 0.
#[derive(Clone, Copy)]
pub(crate) struct Scramble {
    state: u64,
}

impl Scramble {
    /// The first state.
    pub(crate) fn new() -> Scramble {
        Scramble {
            state: 0x9E37_79B9_7F4A_7C16,
        }
    }

    /// The next number.
    pub(crate) fn next(&mut self) -> u64 {
        let mut state = self.state;
        state ^= state << 13;
        state ^= state >> 7;
        state ^= state << 17;
        self.state = state;
        state
    }

    /// The next number below a limit.
    pub(crate) fn below(&mut self, limit: u32) -> u32
        requires { 0 < limit }
        ensures { result < limit }
    {
        ((self.next() >> 33) % limit as u64) as u32
    }
}
