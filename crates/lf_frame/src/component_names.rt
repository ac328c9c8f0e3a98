//! The names of components.

ghost use Rattle.std.specs.Prelude.{[], ◌∷◌, ◌++◌, ◌≡◌, Contains, IsTrue, IsFalse, IfOk, IsPermutation};
ghost use Rattle.lf_frame.specs.Entries.{FirstIs};
ghost use Rattle.lf_frame.specs.ClaimRefusals.{HasEarlierName};
ghost use Rattle.lf_frame.specs.ComponentNames.{numbered_names};

use lf_def::Component;
use lf_names::{Added, NameTable, PartitionedNames};
use std::alloc::{AllocError, Global};

/// Returns the names of components in parts, each labelled with its component's number. `Err` if an
/// allocation fails.
pub(crate) fn parts_of_components(
    alloc: Global,
    components: &[Component],
) -> Result<PartitionedNames, AllocError>
    ensures { IfOk result (λ parts. IsPermutation (numbered_names components.now) parts) }
{
    let mut parts = PartitionedNames::new(alloc)?;
    for (number, component) in components.iter().enumerate() {
        parts.push(number, component.name())?;
    }
    Ok(parts)
}

/// Adds the name if the table does not have it. Returns true if the name is new. `Err` if an
/// allocation fails.
pub fn add_if_new(names: &mut NameTable, name: &[u8]) -> Result<bool, AllocError>
    ensures new { IfOk result (λ added. IsTrue added → Contains names.old name.now → ⊥) }
    ensures added { IfOk result (λ added. IsTrue added → names.new ≡ names.old ++ name.now ∷ []) }
    ensures present { IfOk result (λ added. IsFalse added → Contains names.old name.now) }
    ensures kept { IfOk result (λ added. IsFalse added → names.new ≡ names.old) }
{
    match names.add(name)? {
        Added::New(_) => Ok(true),
        Added::Present(_) => Ok(false),
    }
}

/// Returns the number of the first component that has the name of an earlier one, or `None`. `Err`
/// if an allocation fails.
pub(crate) fn first_second_name(
    alloc: Global,
    components: &[Component],
) -> Result<Option<usize>, AllocError>
    ensures { IfOk result (FirstIs HasEarlierName components.now) }
{
    let mut names = NameTable::new(alloc);
    for (number, component) in components.iter().enumerate() {
        if !add_if_new(&mut names, component.name())? {
            return Ok(Some(number));
        }
    }
    Ok(None)
}
