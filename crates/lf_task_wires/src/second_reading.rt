//! The pins of LEF texts and the nets of a DEF text.

ghost use Rattle.std.specs.Prelude.{◌≡◌, ◌≤◌, [], Ok, IfErr, IfOk, OnOk, length, map};
ghost use Rattle.lf_wire_nets.specs.NetTexts.{nets_of};
ghost use Rattle.lf_wire_nets.specs.NetRanges.{AreDesignNets};
ghost use Rattle.lf_wire_nets.specs.LibraryPins.{pins_after};
ghost use Rattle.lf_task_faults.specs.declared.faults.TextKind.TheVariants.{Def, Lef};
ghost use Rattle.lf_task_designs.specs.Designs.{IsRefusedText};
ghost use Rattle.lf_task_wires.specs.Readings.{AddPins, IsNetsRefusal, IsPinsFault, IsPinsRefusal};

use lf_task_designs::{def_file, lef_file, text_refusal};
use lf_task_faults::Fault;
use lf_wire_nets::{DesignNets, LibraryPins, read_nets, read_pins};
use std::alloc::Global;

/// Reads the pins of one more LEF text, of the file `path`.
fn add_pins<'t, 'a>(
    alloc: Global,
    macros: &mut LibraryPins<'t>,
    path: &'a str,
    text: &'t [u8],
) -> Result<(), Fault<'a>>
    ensures ok { OnOk result (pins_after macros.old text.now ≡ Ok macros.new) }
    ensures err { IfErr result (IsRefusedText Lef path.now text.now (IsPinsRefusal macros.old text.now)) }
{
    match read_pins(alloc, macros, text) {
        Ok(()) => Ok(()),
        Err(fault) => Err(text_refusal(alloc, lef_file(path), text, &fault)),
    }
}

/// Reads the pins of the LEF texts of these files, in their order.
pub(crate) fn pins_of<'t, 'a>(
    alloc: Global,
    paths: &[&'a str],
    texts: &'t [Vec<u8>],
) -> Result<LibraryPins<'t>, Fault<'a>>
    requires { length texts.now ≤ length paths.now }
    ensures ok { IfOk result (AddPins [] (map (λ t. t.items) texts.now)) }
    ensures err { IfErr result
        (IsPinsFault [] (map (λ path. path.now) paths.now) (map (λ t. t.items) texts.now)) }
{
    let mut macros = LibraryPins::new(alloc);
    for (at, text) in texts.iter().enumerate() {
        add_pins(alloc, &mut macros, paths[at], text.as_slice())?;
    }
    Ok(macros)
}

/// Reads the nets of a DEF text, of the file `path`.
pub(crate) fn nets_in<'t, 'a>(
    alloc: Global,
    path: &'a str,
    text: &'t [u8],
) -> Result<DesignNets<'t>, Fault<'a>>
    ensures ok { IfOk result (λ nets. nets_of text.now ≡ Ok nets) }
    ensures range { IfOk result (λ nets. AreDesignNets nets) }
    ensures err { IfErr result (IsRefusedText Def path.now text.now (IsNetsRefusal text.now)) }
{
    match read_nets(alloc, text) {
        Ok(nets) => Ok(nets),
        Err(fault) => Err(text_refusal(alloc, def_file(path), text, &fault)),
    }
}
