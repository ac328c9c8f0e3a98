//! The nets of a design, bound to its cells.

ghost use Rattle.std.specs.Prelude.{◌≡◌, ◌<◌, ◌≤◌, ◌++◌, ◌∷◌, [], All, IfOk, OnOk, count_by, find, length, map};
ghost use Rattle.std.specs.List.{flat_map};
ghost use Rattle.lf_wire_nets.specs.NetRanges.{AreDesignNets, IsDesignPort};
ghost use Rattle.lf_wire_nets.specs.Binding.{bound_net, bound_nets, bound_pins, is_supply, pin_of_port, pins_of_design, pins_of_ports};
ghost use Rattle.lf_wire_nets.specs.Names.{AreNamesOf, is_design_pin_named};
ghost use Rattle.lf_wire_nets.specs.Rows.{AreRowsKnown, with_pins};
ghost use Rattle.lf_wire_nets.specs.Texts.{facts_of};

use crate::bound_terms::{component_pin, design_pin_named, pin_of_port};
use crate::design_pins::DesignPort;
use crate::names::{NameTables, name_tables};
use crate::net_terms::NetTerm;
use crate::nets::DesignNet;
use crate::rows::{NetRows, netlist_of, no_rows, push_pin, start_net};
use crate::texts::DesignTexts;
use lf_wire_length::{NetPin, Netlist, NetlistError};
use std::alloc::Global;

/// The nets of a design, their pins bound to its cells.
#[derive(Drop)]
pub struct BoundNets {
    pub netlist: Netlist,
    /// The number of supplies, which the netlist does not have.
    pub supplies: usize,
}

/// Appends a pin of the design at each of these ports to the last net.
fn push_ports(rows: &mut NetRows, ports: &[DesignPort]) -> Result<(), NetlistError>
    requires ports { All IsDesignPort ports.now }
    requires known { AreRowsKnown rows.old }
    requires net { 0 < length rows.old.netlist.nets }
    ensures known { OnOk result (AreRowsKnown rows.new) }
    ensures nets { OnOk result
        (rows.new.netlist.nets ≡ with_pins (map pin_of_port ports.now) rows.old.netlist.nets) }
{
    for port in ports {
        push_pin(rows, &pin_of_port(port))?;
    }
    Ok(())
}

/// Appends the pins of a pin of the design with these ports to the last net.
#[tactic(auto, using(crate::proofs::NetLemmas::some_port, crate::proofs::NetLemmas::no_port))]
fn bind_ports(rows: &mut NetRows, ports: &[DesignPort]) -> Result<(), NetlistError>
    requires ports { All IsDesignPort ports.now }
    requires known { AreRowsKnown rows.old }
    requires net { 0 < length rows.old.netlist.nets }
    ensures known { OnOk result (AreRowsKnown rows.new) }
    ensures nets { OnOk result
        (rows.new.netlist.nets ≡ with_pins (pins_of_ports ports.now) rows.old.netlist.nets) }
{
    if ports.is_empty() {
        push_pin(rows, &NetPin::Unplaced)
    } else {
        push_ports(rows, ports)
    }
}

/// Appends the pins of the pin of the design with this name to the last net.
fn bind_design_pin(
    texts: &DesignTexts,
    tables: &NameTables,
    rows: &mut NetRows,
    name: &[u8],
) -> Result<(), NetlistError>
    requires tables { AreNamesOf (facts_of texts.now) tables.now }
    requires range { AreDesignNets texts.now.nets.now }
    requires known { AreRowsKnown rows.old }
    requires net { 0 < length rows.old.netlist.nets }
    ensures known { OnOk result (AreRowsKnown rows.new) }
    ensures nets { OnOk result (rows.new.netlist.nets ≡ with_pins
        (pins_of_design (find (is_design_pin_named name.now) texts.now.nets.now.pins)) rows.old.netlist.nets) }
{
    match design_pin_named(texts.nets.pins.as_slice(), &tables.pins, name) {
        Some(pin) => bind_ports(rows, pin.ports()),
        None => push_pin(rows, &NetPin::Unknown),
    }
}

/// Appends the pins that this term denotes to the last net.
fn bind_term(
    texts: &DesignTexts,
    tables: &NameTables,
    rows: &mut NetRows,
    term: &NetTerm,
) -> Result<(), NetlistError>
    requires tables { AreNamesOf (facts_of texts.now) tables.now }
    requires range { AreDesignNets texts.now.nets.now }
    requires known { AreRowsKnown rows.old }
    requires net { 0 < length rows.old.netlist.nets }
    ensures known { OnOk result (AreRowsKnown rows.new) }
    ensures nets { OnOk result
        (rows.new.netlist.nets ≡ with_pins (bound_pins (facts_of texts.now) term.now) rows.old.netlist.nets) }
{
    match term.component() {
        Some(name) => push_pin(rows, &component_pin(texts, tables, name, term.pin())),
        None => bind_design_pin(texts, tables, rows, term.pin()),
    }
}

/// Appends the pins that these terms denote to the last net.
fn bind_terms(
    texts: &DesignTexts,
    tables: &NameTables,
    rows: &mut NetRows,
    terms: &[NetTerm],
) -> Result<(), NetlistError>
    requires tables { AreNamesOf (facts_of texts.now) tables.now }
    requires range { AreDesignNets texts.now.nets.now }
    requires known { AreRowsKnown rows.old }
    requires net { 0 < length rows.old.netlist.nets }
    ensures known { OnOk result (AreRowsKnown rows.new) }
    ensures nets { OnOk result (rows.new.netlist.nets
        ≡ with_pins (flat_map (bound_pins (facts_of texts.now)) terms.now) rows.old.netlist.nets) }
{
    for term in terms {
        bind_term(texts, tables, rows, term)?;
    }
    Ok(())
}

/// Appends the net, with the pins that its terms denote.
fn bind_net(
    texts: &DesignTexts,
    tables: &NameTables,
    rows: &mut NetRows,
    net: &DesignNet,
) -> Result<(), NetlistError>
    requires tables { AreNamesOf (facts_of texts.now) tables.now }
    requires range { AreDesignNets texts.now.nets.now }
    requires known { AreRowsKnown rows.old }
    ensures known { OnOk result (AreRowsKnown rows.new) }
    ensures nets { OnOk result
        (rows.new.netlist.nets ≡ rows.old.netlist.nets ++ bound_net (facts_of texts.now) net.now ∷ []) }
{
    start_net(rows)?;
    bind_terms(texts, tables, rows, net.terms.as_slice())?;
    Ok(())
}

/// Appends the net unless it is a supply. Returns the number of supplies: 1 or 0.
fn bind_signal(
    texts: &DesignTexts,
    tables: &NameTables,
    rows: &mut NetRows,
    net: &DesignNet,
) -> Result<usize, NetlistError>
    requires tables { AreNamesOf (facts_of texts.now) tables.now }
    requires range { AreDesignNets texts.now.nets.now }
    requires known { AreRowsKnown rows.old }
    ensures known { OnOk result (AreRowsKnown rows.new) }
    ensures nets { OnOk result
        (rows.new.netlist.nets ≡ rows.old.netlist.nets ++ bound_nets (facts_of texts.now) (net.now ∷ [])) }
    ensures supplies { IfOk result (λ supplies. supplies ≡ count_by is_supply (net.now ∷ [])) }
    ensures few { IfOk result (λ supplies. supplies ≤ 1) }
{
    if net.supply {
        return Ok(1);
    }
    bind_net(texts, tables, rows, net)?;
    Ok(0)
}

/// Appends the nets that are no supplies. Returns the number of supplies.
fn bind_all(
    texts: &DesignTexts,
    tables: &NameTables,
    rows: &mut NetRows,
    nets: &[DesignNet],
) -> Result<usize, NetlistError>
    requires tables { AreNamesOf (facts_of texts.now) tables.now }
    requires range { AreDesignNets texts.now.nets.now }
    requires known { AreRowsKnown rows.old }
    ensures nets { OnOk result
        (rows.new.netlist.nets ≡ rows.old.netlist.nets ++ bound_nets (facts_of texts.now) nets.now) }
    ensures supplies { IfOk result (λ supplies. supplies ≡ count_by is_supply nets.now) }
{
    let mut supplies = 0;
    for net in nets {
        let more = bind_signal(texts, tables, rows, net)?;
        supplies += more;
    }
    Ok(supplies)
}

/// Binds the pins of all signal nets of a design to its cells. Power and ground nets are skipped.
///
/// A term of a net names a component or a pin of the design, and several entries may have one name.
///
/// - If several cells have the component's name, the first is used. If none has it, the first FIXED
///   or COVER component with that name is used.
/// - If several macros or pins have one name, the first is used.
/// - A pin is unknown if the texts have no such component, no such pin of its macro, no rectangle
///   of that pin, or no such pin of the design.
/// - A pin of the design is once at each of its ports that are placed: at the middle of the port's
///   shapes, or where it is placed if it has no shape. If none is placed, it is unplaced.
///
/// `Err(OutOfMemory)` if an allocation fails. `Err(TooMany)` if a netlist cannot hold all nets, pins
/// or rows.
pub fn bind_nets(alloc: Global, texts: &DesignTexts) -> Result<BoundNets, NetlistError>
    requires { AreDesignNets texts.now.nets.now }
    ensures nets { IfOk result (λ bound. bound.netlist.nets ≡ bound_nets (facts_of texts.now) texts.now.nets.now.nets) }
    ensures supplies { IfOk result (λ bound. bound.supplies ≡ count_by is_supply texts.now.nets.now.nets) }
{
    let Ok(tables) = name_tables(alloc, texts) else {
        return Err(NetlistError::OutOfMemory);
    };
    let Ok(mut rows) = no_rows(alloc) else {
        return Err(NetlistError::OutOfMemory);
    };
    let supplies = bind_all(texts, &tables, &mut rows, texts.nets.nets.as_slice())?;
    Ok(BoundNets {
        netlist: netlist_of(rows),
        supplies,
    })
}
