//! Nets of a design bound to its cells, to a FIXED component and to pins of the design.

use lf_def::{DefDoc, read_def};
use lf_frame::{Limits, Loaded, load};
use lf_lef::{Library, read_lef};
use lf_wire_length::{NetCounts, WireLengths};
use lf_wire_nets::{DesignTexts, LibraryPins, bind_nets, read_nets, read_pins};
use std::alloc::Global;
use std::test::Fail;

/// A cell with two pins that have a rectangle and one that has none, and a macro with an ORIGIN.
const LEF: &[u8] = b"VERSION 5.8 ;
SITE core
  CLASS CORE ;
  SIZE 0.2 BY 2.0 ;
END core
MACRO INV
  CLASS CORE ;
  SIZE 0.4 BY 2.0 ;
  SYMMETRY X Y ;
  SITE core ;
  PIN A
    PORT
      LAYER m1 ;
      RECT 0 0.5 0.1 0.7 ;
    END
  END A
  PIN Y
    PORT
      LAYER m1 ;
      RECT 0.3 0.5 0.4 0.9 ;
    END
  END Y
  PIN open
    DIRECTION INPUT ;
  END open
END INV
MACRO RAM
  CLASS BLOCK ;
  ORIGIN 0.1 0.2 ;
  SIZE 1.0 BY 2.0 ;
  PIN D
    PORT
      LAYER m1 ;
      RECT 0 0 0.2 0.4 ;
    END
  END D
END RAM
END LIBRARY
";

/// Another macro of the name of the first cell, which does not count.
const SECOND_LEF: &[u8] = b"MACRO INV
  SIZE 0.4 BY 2.0 ;
  PIN B
    PORT
      LAYER m1 ;
      RECT 0 0 0.2 0.2 ;
    END
  END B
END INV
END LIBRARY
";

/// Three cells, one of them unplaced, and a FIXED macro. The pin of the first net has two ports: the
/// middle of one is at ( -160 70 ) and of the other at ( 615 40 ). The third net has pins that do not count,
/// and the last net is a supply.
const DEF: &[u8] = b"VERSION 5.8 ;
DESIGN top ;
UNITS DISTANCE MICRONS 1000 ;
ROW r0 core 0 0 N DO 50 BY 1 STEP 200 0 ;
COMPONENTS 4 ;
- u1 INV + PLACED ( 0 0 ) N ;
- ram RAM + FIXED ( 5000 2000 ) W ;
- u2 INV + PLACED ( 1000 0 ) FN ;
- u3 INV ;
END COMPONENTS
PINS 3 ;
- in + NET a + PORT + LAYER m1 ( 0 0 ) ( 40 120 ) + PLACED ( -100 50 ) W
  + PORT + POLYGON m1 ( 0 0 ) ( 30 0 ) ( 30 -20 ) + FIXED ( 600 50 ) N ;
- in + NET a + PLACED ( 9 9 ) N ;
- nowhere + NET c ;
END PINS
NETS 4 ;
- a ( PIN in ) ( u1 A ) ;
- b ( u1 Y ) ( u2 A ) ( ram D ) ;
- c ( u2 Y ) ( u3 A ) ( PIN nowhere ) ( u1 open ) ( u9 A ) ( u1 B ) ( PIN none ) ;
- vdd ( u1 A ) ( u2 A ) + USE POWER ;
END NETS
END DESIGN
";

/// The lengths of the nets of a design, and the number of its supplies.
#[derive(Drop)]
struct Measured {
    lengths: WireLengths,
    supplies: usize,
}

/// Reads the pins of both LEF texts.
fn macros_of(alloc: Global) -> Result<LibraryPins<'static>, Fail> {
    let mut macros = LibraryPins::new(alloc);
    for text in [LEF, SECOND_LEF] {
        if read_pins(alloc, &mut macros, text).is_err() {
            return Err(Fail::from("pins"));
        }
    }
    Ok(macros)
}

/// Measures the nets of the design.
fn measure_nets(alloc: Global, loaded: &Loaded, document: &DefDoc<'_>) -> Result<Measured, Fail> {
    let macros = macros_of(alloc)?;
    let Ok(nets) = read_nets(alloc, DEF) else {
        return Err(Fail::from("nets"));
    };
    let texts = DesignTexts {
        loaded,
        macros: &macros,
        document,
        nets: &nets,
    };
    let bound = bind_nets(alloc, &texts);
    let Ok(bound) = bound else {
        return Err(Fail::from("bound nets"));
    };
    Ok(Measured {
        lengths: bound.netlist.lengths(alloc, &loaded.cells, 1)?,
        supplies: bound.supplies,
    })
}

/// Loads the design of a library and a document.
fn design_on(alloc: Global, library: &Library, document: &DefDoc) -> Result<Loaded, Fail> {
    match load(alloc, library, document, Limits::standard()) {
        Ok(design) => Ok(design),
        Err(_) => Err(Fail::from("a design")),
    }
}

/// Reads the library of both LEF texts.
fn library_of(alloc: Global) -> Result<Library, Fail> {
    let mut library = Library::new(alloc);
    for text in [LEF, SECOND_LEF] {
        if read_lef(&mut library, text).is_err() {
            return Err(Fail::from("a LEF text"));
        }
    }
    Ok(library)
}

/// Loads the design of the document, and measures its nets.
fn measure_on(alloc: Global, document: &DefDoc<'_>) -> Result<Measured, Fail> {
    let library = library_of(alloc)?;
    let loaded = design_on(alloc, &library, document)?;
    measure_nets(alloc, &loaded, document)
}

#[test]
fn binds_nets(rt: HostRuntime) -> Result<(), Fail> {
    let Ok(document) = read_def(rt.alloc(), DEF) else {
        return Err(Fail::from("a DEF text"));
    };
    let found = measure_on(rt.alloc(), &document)?;
    assert_eq!(rt; (found.lengths.nets, found.supplies), (3, 1));
    assert_eq!(rt; found.lengths.length, 18370);
    let counts = NetCounts {
        pins: 7,
        one_pin: 1,
        unknown: 4,
        unplaced: 2,
        fixed_nets: 0,
        crossing_nets: 0,
        crossing: 0,
    };
    assert_eq!(rt; found.lengths.counts, counts);
    Ok(())
}
