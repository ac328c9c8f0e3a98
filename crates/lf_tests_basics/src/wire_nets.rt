//! Pins and nets of DEF texts in the forms of several tools, and bad texts with their faults.

use crate::wire_faults::at_line;
use lf_lex::{FaultNumber, LoadFault};
use lf_wire_nets::{DesignNet, DesignPin, DesignPort, NetTerm, read_nets};
use std::alloc::{AllocError, Global};
use std::test::Fail;

/// A design in the form of qflow: pins in lines, nets with their terms in lines, and no USE.
const QFLOW: &[u8] = b"VERSION 5.6 ;
DIVIDERCHAR \"/\" ;
BUSBITCHARS \"<>\" ;
DESIGN adder ;
UNITS DISTANCE MICRONS 100 ;
TRACKS X -320.0 DO 273 STEP 80 LAYER metal2 ;
COMPONENTS 2 ;
- u1 NOT2
  + PLACED ( 160 0 ) N ;
- u2 NOT2 ;
END COMPONENTS
PINS 2 ;
- a<0> + NET a<0>
  + LAYER metal2 ( -15 -15 ) ( 15 15 )
  + PLACED ( -1230 200 ) N ;
- y + NET y
  + LAYER metal2 ( -15 -15 ) ( 15 15 ) ;
END PINS
SPECIALNETS 1 ;
- vdd ( * vdd ) + ROUTED metal1 100 ( 0 0 ) ( 9 * ) ;
END SPECIALNETS
NETS 2 ;
- a<0>
  ( PIN a<0> )
  ( u1 A ) ;
- n1
  ( u1 Y )
  ( u2 A ) ;
END NETS
END DESIGN
";

/// A design in the form of OpenROAD: a supply, routing with vias, a net that ends in a component's
/// pin, and a pin with two ports.
const OPENROAD: &[u8] = b"VERSION 5.8 ;
DESIGN top ;
DIEAREA ( 0 0 ) ( 9000 9000 ) ;
PINS 2 ;
    - clk + NET clk + DIRECTION INPUT + USE CLOCK
      + PORT
        + LAYER met3 ( -400 -150 ) ( 400 150 )
        + FIXED ( 400 7000 ) N
      + PORT
        + LAYER met3 ( -400 -150 ) ( 400 150 )
        + PLACED ( 8000 10 ) FS ;
    - VSS + NET VSS + SPECIAL + DIRECTION INOUT + USE GROUND ;
END PINS
NETS 3 ;
    - clk ( PIN clk ) ( ff_1 CK ) + USE CLOCK
      + ROUTED met1 ( 1 2 ) ( * 3 ) M1M2_PR
      NEW met2 ( 1 2 ) ( 5 * 0 ) ;
    - VSS ( ff_1 VSS ) + WEIGHT 2 + USE GROUND + USE SIGNAL ;
    - open + USE SIGNAL ;
END NETS
END DESIGN
";

/// A design in the form of Innovus: NETS in front of PINS, escaped names, SYNTHESIZED, subnets,
/// virtual pins, properties with a semicolon, and COVER.
const INNOVUS: &[u8] = b"DESIGN core ;
PROPERTYDEFINITIONS
  NET net_group STRING ;
END PROPERTYDEFINITIONS
NETS 2 ;
- n\\[1\\] ( i0/u\\[3\\] A + SYNTHESIZED ) ( PIN p\\[1\\] )
  + VPIN v1 LAYER M1 ( 0 0 ) ( 1 1 ) PLACED ( 4 4 ) N
  + SUBNET s1 ( i0/u7 Z ) ( VPIN v1 ) ROUTED M2 ( 0 0 ) ( 0 9 )
  + PROPERTY net_group \"a ; + USE POWER\" + SOURCE DIST ;
- MUSTJOIN_3 ( i0/u7 VDD ) + USE POWER + NONDEFAULTRULE wide ;
END NETS
GROUPS 1 ;
- NETS i0/* + REGION PINS ;
END GROUPS
PINS 1 ;
- p\\[1\\] + NET n\\[1\\] + COVER ( 12 -7 ) FE + LAYER M3 ( 0 0 ) ( 8 8 ) ;
END PINS
END DESIGN
";

/// A design in the form of ICC2: an extension, two NETS sections, a pin without a placement, and
/// MUSTJOIN.
const ICC2: &[u8] = b"DESIGN chip ;
BEGINEXT \"x\" NETS 1 ; ENDEXT
PINS 0 ;
END PINS
NETS 1 ;
- MUSTJOIN ( u1 A ) ( u2 B ) ;
END NETS
NETS 1 ;
- a ( u3 Z ) + + FIXEDBUMP ;
END NETS
PINS 1 ;
- in + ;
END PINS
END DESIGN
NETS 1 ;
";

/// Shapes of pins: several in a port, with their words; ports that are not placed; and vias.
const SHAPES: &[u8] = b"DESIGN shapes ;
PINS 4 ;
- a + NET a
  + LAYER M1 MASK 1 SPACING 20 ( 5 -5 ) ( -10 20 )
  + POLYGON M2 DESIGNRULEWIDTH 30 ( 0 0 ) ( 40 0 ) ( 40 -7 )
  + FIXED ( 100 200 ) S + PLACED ( 1 2 ) N ;
- b + NET b + PLACED ( 7 8 ) FW
  + PORT + LAYER M1 ( 0 0 ) ( 1 1 )
  + PORT + LAYER M1 ( 2 2 ) ( 3 3 ) + COVER ( 9 9 ) E
  + PORT + VIA via1 MASK 121 ( 5 5 ) + PLACED ( 0 1 ) N ;
- c + NET c + ANTENNAPINPARTIALMETALAREA 4 LAYER M1 + LAYER M1 + PORT + PLACED ( 6 6 ) FE ;
- d + NET d + LAYER M1 ( 0 0 ) ( 8 8 ) ;
END PINS
END DESIGN
";

/// Appends where a port of a pin is placed, and the box around its shapes in front of that.
fn push_port(alloc: Global, lines: &mut Vec<u8>, port: &DesignPort) -> Result<(), AllocError> {
    if let Some(rect) = port.shape {
        let (x1, y1, x2, y2) = (rect.x1, rect.y1, rect.x2, rect.y2);
        let numbers = format!(in alloc; " [{x1} {y1} {x2} {y2}]")?;
        lines.extend_from_slice(numbers.as_bytes())?;
    }
    let (x, y, orient) = (port.at.x, port.at.y, port.at.orient);
    let numbers = format!(in alloc; " {x} {y} {orient:?}")?;
    lines.extend_from_slice(numbers.as_bytes())
}

/// Appends the name of a pin of the design and its ports.
fn push_pin(alloc: Global, lines: &mut Vec<u8>, pin: &DesignPin<'_>) -> Result<(), AllocError> {
    lines.extend_from_slice(pin.name())?;
    for port in pin.ports() {
        push_port(alloc, lines, port)?;
    }
    lines.extend_from_slice(b"\n")
}

/// Appends the names of a term.
fn push_term(lines: &mut Vec<u8>, term: &NetTerm<'_>) -> Result<(), AllocError> {
    lines.extend_from_slice(b" ")?;
    if let Some(component) = term.component() {
        lines.extend_from_slice(component)?;
        lines.extend_from_slice(b".")?;
    }
    lines.extend_from_slice(term.pin())
}

/// Appends a line with the terms of a net, which begins with S for a supply.
fn push_net(lines: &mut Vec<u8>, net: &DesignNet<'_>) -> Result<(), AllocError> {
    lines.push(if net.supply { b'S' } else { b'N' })?;
    for term in net.terms.as_slice() {
        push_term(lines, term)?;
    }
    lines.extend_from_slice(b"\n")
}

/// Appends a line with the number of terms.
fn push_count(alloc: Global, lines: &mut Vec<u8>, terms: usize) -> Result<(), AllocError> {
    let count = format!(in alloc; "{terms}\n")?;
    lines.extend_from_slice(count.as_bytes())
}

/// Returns a line for each pin and each net of a text, and the number of terms. No line if the text
/// is refused.
fn lines_of(alloc: Global, text: &[u8]) -> Result<Vec<u8>, AllocError> {
    let mut lines = Vec::new(alloc);
    if let Ok(found) = read_nets(alloc, text) {
        for pin in found.pins.as_slice() {
            push_pin(alloc, &mut lines, pin)?;
        }
        for net in found.nets.as_slice() {
            push_net(&mut lines, net)?;
        }
        push_count(alloc, &mut lines, found.terms)?;
    }
    Ok(lines)
}

/// Returns the refusal of a text, or `None` if it is read.
fn refusal<'a>(rt: &HostRuntime, text: &'a [u8]) -> Option<LoadFault<'a>> {
    read_nets(rt.alloc(), text).err()
}

/// Pins of the design and of components. SPECIALNETS have no nets.
#[test]
fn reads_qflow(rt: HostRuntime) -> Result<(), Fail> {
    let expected = b"a<0> [-15 -15 15 15] -1230 200 N\ny\nN a<0> u1.A\nN u1.Y u2.A\n4\n";
    assert!(rt; lines_of(rt.alloc(), QFLOW)?.as_slice() == expected.as_slice());
    Ok(())
}

/// Each port of a pin counts. The first USE counts, and routing is skipped.
#[test]
fn reads_openroad(rt: HostRuntime) -> Result<(), Fail> {
    let expected = b"clk [-400 -150 400 150] 400 7000 N [-400 -150 400 150] 8000 10 FS
VSS
N clk ff_1.CK
S ff_1.VSS
N
3
";
    assert!(rt; lines_of(rt.alloc(), OPENROAD)?.as_slice() == expected.as_slice());
    Ok(())
}

/// Tokens after a pin's name, subnets and quoted texts are skipped. PINS may follow NETS.
#[test]
fn reads_innovus(rt: HostRuntime) -> Result<(), Fail> {
    let expected = b"p\\[1\\] [0 0 8 8] 12 -7 FE\nN i0/u\\[3\\].A p\\[1\\]\nS i0/u7.VDD\n3\n";
    assert!(rt; lines_of(rt.alloc(), INNOVUS)?.as_slice() == expected.as_slice());
    Ok(())
}

/// A port has the least box around all points of its LAYER and POLYGON clauses. A port that is not
/// placed does not count, and vias do not widen a box.
#[test]
fn reads_shapes(rt: HostRuntime) -> Result<(), Fail> {
    let expected = b"a [-10 -7 40 20] 100 200 S
b 7 8 FW [2 2 3 3] 9 9 E 0 1 N
c 6 6 FE
d
0
";
    assert!(rt; lines_of(rt.alloc(), SHAPES)?.as_slice() == expected.as_slice());
    Ok(())
}

/// Sections may be repeated, a clause may have no word, and nothing after END DESIGN counts.
#[test]
fn reads_icc2(rt: HostRuntime) -> Result<(), Fail> {
    let expected = b"in\nN u1.A u2.B\nN u3.Z\n3\n";
    assert!(rt; lines_of(rt.alloc(), ICC2)?.as_slice() == expected.as_slice());
    Ok(())
}

/// True if a text with a PINS or NETS section that begins so is refused for this fault at a line.
fn refuses(
    rt: &HostRuntime,
    section: &[u8],
    number: FaultNumber,
    line: usize,
) -> Result<bool, AllocError> {
    let mut text = Vec::from_slice(rt.alloc(), b"DESIGN d ;\n")?;
    text.extend_from_slice(section)?;
    let refused = refusal(rt, &text) == at_line(number, line);
    Ok(refused)
}

/// The fault of a bad PINS section is the first in the order of the tokens.
#[test]
fn refuses_bad_pins(rt: HostRuntime) -> Result<(), Fail> {
    assert!(rt; refuses(&rt, b"PINS 1 ;\n\x80", FaultNumber::BadToken, 3)?);
    assert!(rt; refuses(&rt, b"PINS 1 ;\n- p + USE", FaultNumber::UnexpectedEnd, 3)?);
    assert!(rt; refuses(&rt, b"PINS 1 ;\np ;", FaultNumber::Unexpected, 3)?);
    assert!(rt; refuses(&rt, b"PINS 1 ;\n- ;", FaultNumber::Unexpected, 3)?);
    assert!(rt;
        refuses(
            &rt,
            b"PINS 1 ;\n- p + FIXED\n1 2",
            FaultNumber::Unexpected,
            4
        )?
    );
    assert!(rt;
        refuses(
            &rt,
            b"PINS 1 ;\n- p + COVER ( 1\n2.5 )",
            FaultNumber::BadNumber,
            4
        )?
    );
    assert!(rt;
        refuses(
            &rt,
            b"PINS 1 ;\n- p + PLACED ( 1 2 )\nX",
            FaultNumber::Unexpected,
            4
        )?
    );
    let second = b"PINS 1 ;\n- p + PLACED ( 1 2 ) N\n+ PLACED ( 1 a ) N ;";
    assert!(rt; refuses(&rt, second, FaultNumber::BadNumber, 4)?);
    assert!(rt;
        refuses(
            &rt,
            b"PINS 1 ;\n- p + LAYER M1 ( 0 0 )\n( 0.5 1 ) ;",
            FaultNumber::BadNumber,
            4
        )?
    );
    assert!(rt;
        refuses(
            &rt,
            b"PINS 1 ;\n- p + POLYGON M1 ( 0 0\n1 ) ;",
            FaultNumber::Unexpected,
            4
        )?
    );
    assert!(rt; refuses(&rt, b"PINS 1 ;\n- p ;\nEND NETS", FaultNumber::WrongEnd, 4)?);
    Ok(())
}

/// The fault of a bad NETS section is the first in the order of the tokens.
#[test]
fn refuses_bad_nets(rt: HostRuntime) -> Result<(), Fail> {
    assert!(rt; refuses(&rt, b"NETS 1 ;\n- n\n( \x01", FaultNumber::BadToken, 4)?);
    assert!(rt; refuses(&rt, b"NETS 1 ;\n- n ( u A", FaultNumber::UnexpectedEnd, 3)?);
    assert!(rt; refuses(&rt, b"NETS 1 ;\n( u A ) ;", FaultNumber::Unexpected, 3)?);
    assert!(rt; refuses(&rt, b"NETS 1 ;\n- n u A", FaultNumber::Unexpected, 3)?);
    assert!(rt; refuses(&rt, b"NETS 1 ;\n- n\n( u ) ;", FaultNumber::Unexpected, 4)?);
    assert!(rt; refuses(&rt, b"NETS 1 ;\n- n (\n) ;", FaultNumber::Unexpected, 4)?);
    assert!(rt;
        refuses(
            &rt,
            b"NETS 1 ;\n- n\n( \"u\" A ) ;",
            FaultNumber::Unexpected,
            4
        )?
    );
    assert!(rt; refuses(&rt, b"NETS 1 ;\n- n + USE\n;", FaultNumber::Unexpected, 4)?);
    assert!(rt;
        refuses(
            &rt,
            b"NETS 1 ;\n- n ;\nEND\nDESIGN",
            FaultNumber::WrongEnd,
            5
        )?
    );
    assert!(rt; refuses(&rt, b"NETS 0 ;\nEND NETS\nEND d", FaultNumber::WrongEnd, 4)?);
    assert!(rt; refuses(&rt, b"NETS 0 ;\nEND NETS\n", FaultNumber::UnexpectedEnd, 4)?);
    Ok(())
}

/// A name of 1,024 bytes is read, one of 1,025 bytes is refused.
#[test]
fn refuses_long_names(rt: HostRuntime) -> Result<(), Fail> {
    let mut text = Vec::from_slice(rt.alloc(), b"DESIGN d ; NETS 1 ;\n- n ( u ")?;
    for _ in 0..1024 {
        text.push(b'A')?;
    }
    assert!(rt; refusal(&rt, &text) == at_line(FaultNumber::UnexpectedEnd, 2));
    text.push(b'A')?;
    assert!(rt; refusal(&rt, &text) == at_line(FaultNumber::TooMany, 2));
    Ok(())
}
