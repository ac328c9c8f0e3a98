//! The faults of texts that cannot be read and of designs that cannot be loaded.

ghost use Rattle.std.specs.Prelude.{◌≡◌};
ghost use Rattle.lf_lex.specs.declared.fault.ReadError.TheVariants.{Memory};
ghost use Rattle.lf_lex.specs.Faults.{load_fault_of};

use std::alloc::{AllocError, AllocFailed};

/// The faults of reading and loading, numbered 1 to 24 in this order.
#[derive(Clone, Copy, Debug, PartialEq, Eq)]
pub enum FaultNumber {
    /// A byte that no token may have.
    BadToken,
    /// The text ends although more is due.
    UnexpectedEnd,
    /// A token other than the one that is due.
    Unexpected,
    /// A number is due, but the token is no number, or its number is too fine or out of range.
    BadNumber,
    /// A name after END other than the one that is due.
    WrongEnd,
    /// A word that begins no statement of DEF.
    UnknownStatement,
    /// The DEF text has no UNITS.
    NoUnits,
    /// A row names a site that no LEF text defines.
    NoSite,
    /// No row has a site of class CORE with both lengths above 0.
    NoRows,
    /// A row has more than one site upwards.
    VerticalRow,
    /// A row's step is not the width of its site.
    BadStep,
    /// A row has an orientation other than N, S, FN and FS, so it lies on its side.
    RowOrient,
    /// A row shares a point with an earlier row.
    RowsOverlap,
    /// A component has a macro that no LEF text defines.
    NoMacro,
    /// A component's macro has no size with both lengths above 0.
    NoSize,
    /// A size is not whole in database units.
    NotWhole,
    /// A component has the name of an earlier one.
    SecondName,
    /// A fence has the name of an earlier one.
    SecondRegion,
    /// No REGIONS entry has the name of a group's region.
    NoRegion,
    /// A fence has the name of the ground team, `-`.
    TeamName,
    /// A fence shares a point with an earlier fence.
    FencesOverlap,
    /// Groups of two different fences name the same component.
    TwoFences,
    /// A name is too long, a limit on the number of entries is exceeded, or a row ends past x
    /// 2147483647.
    TooMany,
    /// An allocation failed.
    OutOfMemory,
}

/// The fault of a text or a design, with its line or name.
///
/// Readers give the line, loading gives the entry's name. A failed allocation has neither.
#[derive(Clone, Copy, Debug, PartialEq, Eq)]
pub struct LoadFault<'a> {
    pub number: FaultNumber,
    pub line: Option<usize>,
    pub name: Option<&'a [u8]>,
}

/// The first fault of a text, in the order of its tokens, and the line of that token.
#[derive(Clone, Copy, Debug, PartialEq, Eq)]
pub struct ReadFault {
    pub number: FaultNumber,
    pub line: usize,
}

/// The reason why reading failed: a fault of the text, or a failed allocation.
#[derive(Debug, Drop)]
pub enum ReadError {
    Memory,
    Fault(ReadFault),
}

impl From<AllocError> for ReadError {
    ghost from_gives = { λ _ e. e ≡ Memory };

    fn from(_e: AllocError) -> ReadError {
        ReadError::Memory
    }
}

impl<T: Drop> From<AllocFailed<T>> for ReadError {
    ghost from_gives = { λ _ e. e ≡ Memory };

    fn from(_e: AllocFailed<T>) -> ReadError {
        ReadError::Memory
    }
}

impl ReadError {
    /// Returns the error for a user: the fault with its line, or `OutOfMemory` with neither line
    /// nor name.
    pub fn into_load_fault<'a>(self) -> LoadFault<'a>
        ensures { result ≡ load_fault_of self }
    {
        match self {
            ReadError::Memory => LoadFault {
                number: FaultNumber::OutOfMemory,
                line: None,
                name: None,
            },
            ReadError::Fault(fault) => LoadFault {
                number: fault.number,
                line: Some(fault.line),
                name: None,
            },
        }
    }
}
