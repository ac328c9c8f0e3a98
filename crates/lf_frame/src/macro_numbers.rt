//! The macro of each component.

ghost use Rattle.std.specs.Prelude.{◌≡◌, ◌≤◌, IfOk, IfSome};
ghost use Rattle.lf_frame.specs.MacroTables.{macro_number_of, macros_of, macro_at as macro_at_number};

use lf_def::Component;
use lf_lef::Library;
use std::alloc::{AllocError, Global};
use std::marker::Model;
use std::mem::size_of;

/// The number of a macro, or `None`, in 32 bits. A contract sees the option.
#[derive(Clone, Copy)]
struct MacroNumber {
    /// 0 for `None`, otherwise one more than the number.
    code: u32,
}

impl Model for MacroNumber {
    ghost use Rattle.std.specs.Prelude.{ℕ, Option};

    ghost Value = { Option ℕ };

    ghost use Rattle.lf_frame.specs.MacroNumbers.{stored_number_in, stored_number, stored_number_back};

    ghost view = { stored_number_in };

    ghost inverse = { stored_number };

    ghost inverse_ok = { λ a h. stored_number_back a };
}

const _: () = prove!(size_of::<MacroNumber>() == 4);

/// The macro of each component, looked up once: its number in the library, or `None` if no LEF text
/// has it. A contract sees the list of these.
#[derive(Drop)]
pub struct MacroTable {
    numbers: Vec<MacroNumber>,
}

impl Model for MacroTable {
    ghost use Rattle.std.specs.Prelude.{ℕ, List, Option};

    ghost Value = { List (Option ℕ) };

    ghost view = { λ t. t.numbers.items };
}

impl MacroNumber {
    /// Returns the same number in 32 bits.
    fn new(number: Option<usize>) -> Self
        requires { IfSome number (λ n. n ≤ 1000000) }
        ensures { result ≡ number }
    {
        match number {
            Some(number) => MacroNumber {
                code: number as u32 + 1,
            },
            None => MacroNumber { code: 0 },
        }
    }

    /// Returns the same number in its full form.
    fn long(&self) -> Option<usize>
        ensures { result ≡ self.now }
    {
        match self.code {
            0 => None,
            code => Some((code - 1) as usize),
        }
    }
}

/// Returns the number of the component's macro in the library.
fn number_of(component: &Component, library: &Library) -> MacroNumber
    ensures { result ≡ macro_number_of library.now component.now }
{
    let _ = library.macros();
    MacroNumber::new(library.find_macro(component.macro_name()))
}

/// Returns the table of these components. `Err` if an allocation fails.
pub fn macro_table(
    alloc: Global,
    components: &[Component],
    library: &Library,
) -> Result<MacroTable, AllocError>
    ensures { IfOk result (λ table. table ≡ macros_of library.now components.now) }
{
    let mut numbers = Vec::with_capacity(alloc, components.len())?;
    for component in components {
        numbers.push(number_of(component, library))?;
    }
    Ok(MacroTable { numbers })
}

impl MacroTable {
    /// Returns the macro of the component with this number. `None` if no LEF text has it, or if
    /// there is no such component.
    pub fn macro_at(&self, number: usize) -> Option<usize>
        ensures { result ≡ macro_at_number self.now number }
    {
        match self.numbers.get(number) {
            Some(found) => found.long(),
            None => None,
        }
    }
}
