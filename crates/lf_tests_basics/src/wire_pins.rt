//! Pins of LEF texts in the forms of several tools, and bad texts with their faults.

use crate::wire_faults::at_line;
use lf_lex::{FaultNumber, LoadFault};
use lf_wire_nets::{LibraryPins, MacroPin, MacroPins, read_pins};
use std::alloc::{AllocError, Global};
use std::test::Fail;

/// A technology, a site and a cell in the form of qflow's libraries, with several rectangles and
/// ports of a pin.
const QFLOW: &[u8] = b"VERSION 5.4 ;
NAMESCASESENSITIVE ON ;
BUSBITCHARS \"[]\" ;
UNITS
  DATABASE MICRONS 1000 ;
END UNITS
LAYER metal1
  TYPE ROUTING ;
  PITCH 1 ;
END metal1
VIA M2_M1 DEFAULT
  LAYER metal1 ;
    RECT -0.3 -0.3 0.3 0.3 ;
END M2_M1
SITE core
  SIZE 0.8 BY 10 ;
  CLASS CORE ;
END core
MACRO NOT2
  CLASS CORE ;
  FOREIGN NOT2 0.000 0.000 ;
  ORIGIN 0.000 0.000 ;
  SIZE 1.600 BY 10.000 ;
  SYMMETRY X Y ;
  SITE core ;
  PIN A
    DIRECTION INPUT ;
    PORT
      LAYER metal1 ;
        RECT 0.600 2.500 0.200 1.700 ;
        RECT 0.500 1.900 0.700 2.100 ;
    END
  END A
  PIN gnd
    USE GROUND ;
    SHAPE ABUTMENT ;
    PORT
      LAYER metal1 ;
        RECT -0.200 -0.300 1.800 0.300 ;
    END
    PORT
      LAYER metal1 ;
        RECT 0.200 -0.300 0.600 2.600 ;
    END
  END gnd
  OBS
    LAYER metal1 ;
      RECT 0 0 9 9 ;
  END
END NOT2
END LIBRARY
";

/// Cells in the form of OpenROAD's platforms: coordinates below a nanometer, masks, polygons, and a
/// pin without a shape.
const OPENROAD: &[u8] = b"VERSION 5.8 ;
BUSBITCHARS \"[]\" ;
PROPERTYDEFINITIONS
  MACRO CatenaDesignType STRING ;
END PROPERTYDEFINITIONS
MACRO BUF_A
  PROPERTY CatenaDesignType \"deviceLevel ; END BUF_A\" ;
  SIZE 0.57 BY 1.4 ;
  PIN Z
    DIRECTION OUTPUT ;
    ANTENNADIFFAREA 0.109725 LAYER metal1 ;
    PORT
      LAYER metal1 ;
        RECT MASK 1 0.42 0.19 0.51 1.25 ;
        POLYGON MASK 2 0.1 0.2 0.1 0.3 -0.4 0.3 -0.4 0.2 ;
    END
  END Z
  PIN VDD
    USE POWER ;
  END VDD
END BUF_A
MACRO EMPTY
END EMPTY
";

/// Cells in the form of Innovus' abstracts: points in parentheses, ITERATE, vias and paths in a port,
/// DENSITY, and the text ends without END LIBRARY.
const INNOVUS: &[u8] = b"MACRO ram
  CLASS BLOCK ;
  ORIGIN -1 -2 ;
  PIN D[0]
    PORT
      CLASS CORE ;
      LAYER M4 SPACING 0.06 ;
        RECT ITERATE ( 1 1 ) ( 2 3 ) DO 4 BY 1 STEP 8 0 ;
        PATH 0 0 50 50 ;
        VIA 40 40 via4 ;
      LAYER M5 ;
        POLYGON ITERATE ( 0.5 2 ) ( 1 2.25 ) ( 1 2 ) DO 3 BY 1 STEP 9 9 ;
    END
  END D[0]
  TIMING
    FROMPIN a ;
  END TIMING
  DENSITY
    LAYER M1 ;
      RECT 0 0 5 5 45.5 ;
  END
END ram
";

/// Cells in the form of ICC2's frames: a name for two macros and for two pins, and an extension.
const ICC2: &[u8] = b"BEGINEXT \"tag\"
  MACRO x PIN y
ENDEXT
MACRO dff
  PIN d
    PORT
      LAYER m1 ;
        RECT 0.1 0.1 0.2 0.2 ;
    END
  END d
  PIN d
  END d
END dff
MACRO dff
END dff
END LIBRARY
MACRO after
";

/// Appends a pin's name and its box, in millionths of a micron.
fn push_pin(alloc: Global, lines: &mut Vec<u8>, pin: &MacroPin<'_>) -> Result<(), AllocError> {
    lines.extend_from_slice(b" ")?;
    lines.extend_from_slice(pin.name())?;
    if let Some(found) = pin.pin_box() {
        let (x1, y1, x2, y2) = (found.x1, found.y1, found.x2, found.y2);
        let numbers = format!(in alloc; " {x1} {y1} {x2} {y2}")?;
        lines.extend_from_slice(numbers.as_bytes())?;
    }
    Ok(())
}

/// Appends a line with a macro's name and its pins.
fn push_macro(alloc: Global, lines: &mut Vec<u8>, cell: &MacroPins<'_>) -> Result<(), AllocError> {
    lines.extend_from_slice(cell.name())?;
    lines.extend_from_slice(b":")?;
    for pin in cell.pins() {
        push_pin(alloc, lines, pin)?;
    }
    lines.extend_from_slice(b"\n")
}

/// Returns a line for each macro of a text, or no line if it is refused.
fn lines_of(alloc: Global, text: &[u8]) -> Result<Vec<u8>, AllocError> {
    let mut lines = Vec::new(alloc);
    let mut library = LibraryPins::new(alloc);
    if let Ok(()) = read_pins(alloc, &mut library, text) {
        for cell in library.macros() {
            push_macro(alloc, &mut lines, cell)?;
        }
    }
    Ok(lines)
}

/// Returns the refusal of a text, or `None` if it is read.
fn refusal<'a>(rt: &HostRuntime, text: &'a [u8]) -> Option<LoadFault<'a>> {
    let mut library = LibraryPins::new(rt.alloc());
    read_pins(rt.alloc(), &mut library, text).err()
}

/// The box of a pin is around all rectangles of all its ports, from any corners.
#[test]
fn reads_qflow(rt: HostRuntime) -> Result<(), Fail> {
    let expected = b"NOT2: A 200000 1700000 700000 2500000 gnd -200000 -300000 1800000 2600000\n";
    assert!(rt; lines_of(rt.alloc(), QFLOW)?.as_slice() == expected.as_slice());
    Ok(())
}

/// Masks are skipped, polygons widen the box, and a pin may have no shape.
#[test]
fn reads_openroad(rt: HostRuntime) -> Result<(), Fail> {
    let expected = b"BUF_A: Z -400000 190000 510000 1250000 VDD\nEMPTY:\n";
    assert!(rt; lines_of(rt.alloc(), OPENROAD)?.as_slice() == expected.as_slice());
    Ok(())
}

/// The first shape of an ITERATE counts. Paths, vias, DENSITY and TIMING do not.
#[test]
fn reads_innovus(rt: HostRuntime) -> Result<(), Fail> {
    let expected = b"ram: D[0] 500000 1000000 2000000 3000000\n";
    assert!(rt; lines_of(rt.alloc(), INNOVUS)?.as_slice() == expected.as_slice());
    Ok(())
}

/// Macros and pins of one name all count, and nothing after END LIBRARY does.
#[test]
fn reads_icc2(rt: HostRuntime) -> Result<(), Fail> {
    let expected = b"dff: d 100000 100000 200000 200000 d\ndff:\n";
    assert!(rt; lines_of(rt.alloc(), ICC2)?.as_slice() == expected.as_slice());
    assert!(rt; lines_of(rt.alloc(), b"")?.is_empty() && refusal(&rt, b"").is_none());
    Ok(())
}

/// True if a text with these statements of a macro's port is refused for this fault at a line.
fn refuses(
    rt: &HostRuntime,
    port: &[u8],
    number: FaultNumber,
    line: usize,
) -> Result<bool, AllocError> {
    let mut text = Vec::from_slice(rt.alloc(), b"MACRO m\nPIN p\nPORT\n")?;
    text.extend_from_slice(port)?;
    let refused = refusal(rt, &text) == at_line(number, line);
    Ok(refused)
}

/// The fault of a bad port, pin or macro is the first in the order of the tokens.
#[test]
fn refuses_bad_pins(rt: HostRuntime) -> Result<(), Fail> {
    let bytes = b"RECT 0 0 1 1 ;\n\x01";
    assert!(rt; refuses(&rt, bytes, FaultNumber::BadToken, 5)?);
    assert!(rt; refuses(&rt, b"RECT 0 0 1 1 ;\n", FaultNumber::UnexpectedEnd, 5)?);
    assert!(rt; refuses(&rt, b"END\nEND \"p\"", FaultNumber::Unexpected, 5)?);
    assert!(rt; refuses(&rt, b"RECT 0 0\n1 ;", FaultNumber::BadNumber, 5)?);
    assert!(rt; refuses(&rt, b"RECT ( 0 0\n1 1 ) ;", FaultNumber::Unexpected, 5)?);
    assert!(rt; refuses(&rt, b"RECT 0 0 1000000.1 1 ;", FaultNumber::BadNumber, 4)?);
    assert!(rt; refuses(&rt, b"POLYGON 0 0 1 ;", FaultNumber::BadNumber, 4)?);
    assert!(rt; refuses(&rt, b"POLYGON\nMASK 1 ;", FaultNumber::BadNumber, 5)?);
    assert!(rt; refuses(&rt, b"END\nEND q", FaultNumber::WrongEnd, 5)?);
    assert!(rt; refuses(&rt, b"END\nEND p\nEND p", FaultNumber::WrongEnd, 6)?);
    assert!(rt; refuses(&rt, b"END END p END m\nEND m", FaultNumber::WrongEnd, 5)?);
    Ok(())
}

/// A name of 1,024 bytes is read, one of 1,025 bytes is refused.
#[test]
fn refuses_long_names(rt: HostRuntime) -> Result<(), Fail> {
    let mut text = Vec::from_slice(rt.alloc(), b"MACRO m\nPIN ")?;
    for _ in 0..1024 {
        text.push(b'p')?;
    }
    assert!(rt; refusal(&rt, &text) == at_line(FaultNumber::UnexpectedEnd, 2));
    text.push(b'p')?;
    assert!(rt; refusal(&rt, &text) == at_line(FaultNumber::TooMany, 2));
    Ok(())
}
