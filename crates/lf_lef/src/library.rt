//! The sites and macros of LEF texts.

ghost use Rattle.std.specs.Prelude.{◌≡◌, ◌≢◌, ◌≤◌, ◌<◌, [], ◌∷◌, ◌++◌, None, length, take, All, AllPairs, OnOk, OnErr};
ghost use Rattle.lf_names.specs.Names.{position_of};
ghost use Rattle.lf_lef.specs.Contents.{site_names, macro_names, IsSite, IsMacro};

use lf_floorplan::{Macro, Site};
use lf_names::NameTable;
use std::alloc::{AllocError, Global};
use std::marker::Model;

/// The sites and macros of the LEF texts that were read, each list in first-read order.
///
/// Names in a list differ, and have at most 1,024 bytes, each from 33 to 126. Lengths lie between
/// -1,000,000 and 1,000,000 microns. A list has at most 1,000,000 entries.
pub struct Library {
    sites: Vec<Site>,
    site_table: NameTable,
    macros: Vec<Macro>,
    macro_table: NameTable,
}

/// Written by hand: with a derived `drop`, the proof of every function that drops a library would
/// unfold it.
impl Drop for Library {
    fn drop(self) {
        let Library {
            sites: _,
            site_table: _,
            macros: _,
            macro_table: _,
        } = self;
    }
}

impl Model for Library {
    ghost use Rattle.std.specs.Prelude.{◌≡◌, ◌≤◌, length, All};
    ghost use Rattle.lf_lef.specs.Contents.{Contents, site_names, macro_names, AreSites, AreMacros};

    ghost Value = { Contents };

    ghost view = { λ l. record { sites = l.sites.items; macros = l.macros.items } };

    ghost invariant = { λ l. (l.site_table ≡ site_names l.sites.items)
        × (l.macro_table ≡ macro_names l.macros.items)
        × AreSites l.sites.items × AreMacros l.macros.items };
}

impl Library {
    /// Returns an empty library. Allocates nothing.
    pub fn new(alloc: Global) -> Self
        ensures { result ≡ record { sites = []; macros = [] } }
    {
        Library {
            sites: Vec::new(alloc),
            site_table: NameTable::new(alloc),
            macros: Vec::new(alloc),
            macro_table: NameTable::new(alloc),
        }
    }

    /// Returns the library's allocator.
    pub(crate) fn alloc(&self) -> Global {
        *self.sites.allocator()
    }

    /// Returns the sites.
    pub fn sites(&self) -> &[Site]
        ensures sites { result.now ≡ self.now.sites }
        ensures each { All IsSite self.now.sites }
        ensures few { length self.now.sites ≤ 1000000 }
    {
        &self.sites
    }

    /// Returns the macros.
    pub fn macros(&self) -> &[Macro]
        ensures macros { result.now ≡ self.now.macros }
        ensures each { All IsMacro self.now.macros }
        ensures few { length self.now.macros ≤ 1000000 }
    {
        &self.macros
    }

    /// Returns the position of the site with this name. `None` if and only if there is no such
    /// site.
    pub fn find_site(&self, name: &[u8]) -> Option<usize>
        ensures { result ≡ position_of (site_names self.now.sites) name.now }
    {
        self.site_table.find(name)
    }

    /// Returns the position of the macro with this name. `None` if and only if there is no such
    /// macro.
    pub fn find_macro(&self, name: &[u8]) -> Option<usize>
        ensures { result ≡ position_of (macro_names self.now.macros) name.now }
    {
        self.macro_table.find(name)
    }

    /// Appends a site with a new name. `Err` if an allocation fails; the library is then unchanged.
    pub(crate) fn add_site(&mut self, site: Site) -> Result<(), AllocError>
        requires site { IsSite site }
        requires fresh { position_of (site_names self.old.sites) site.name ≡ None }
        requires room { length self.old.sites < 1000000 }
        ensures ok { OnOk result
            (self.new ≡ record self.old { sites = self.old.sites ++ site ∷ [] }) }
        ensures err { OnErr result (self.new ≡ self.old) }
    {
        push_site(&mut self.sites, &mut self.site_table, site)
    }

    /// Appends a macro with a new name. `Err` if an allocation fails; the library is then
    /// unchanged.
    pub(crate) fn add_macro(&mut self, cell: Macro) -> Result<(), AllocError>
        requires cell { IsMacro cell }
        requires fresh { position_of (macro_names self.old.macros) cell.name ≡ None }
        requires room { length self.old.macros < 1000000 }
        ensures ok { OnOk result
            (self.new ≡ record self.old { macros = self.old.macros ++ cell ∷ [] }) }
        ensures err { OnErr result (self.new ≡ self.old) }
    {
        push_macro(&mut self.macros, &mut self.macro_table, cell)
    }

    /// Keeps the first `sites` sites and `macros` macros. Allocates nothing.
    pub(crate) fn truncate(&mut self, sites: usize, macros: usize)
        ensures { self.new ≡ record
            { sites = take sites self.old.sites; macros = take macros self.old.macros } }
    {
        self.sites.truncate(sites);
        self.site_table.truncate(sites);
        self.macros.truncate(macros);
        self.macro_table.truncate(macros);
    }
}

fn push_site(sites: &mut Vec<Site>, table: &mut NameTable, site: Site) -> Result<(), AllocError>
    requires named { table.old ≡ site_names sites.old.items }
    requires fresh { position_of (site_names sites.old.items) site.name ≡ None }
    ensures ok { OnOk result (sites.new.items ≡ sites.old.items ++ site ∷ []) }
    ensures err { OnErr result (sites.new.items ≡ sites.old.items) }
    ensures named { table.new ≡ site_names sites.new.items }
{
    let count = table.len();
    table.add(site.name.as_bytes())?;
    match sites.push(site) {
        Ok(_) => Ok(()),
        Err(failed) => {
            table.truncate(count);
            Err(failed.into())
        }
    }
}

fn push_macro(macros: &mut Vec<Macro>, table: &mut NameTable, cell: Macro) -> Result<(), AllocError>
    requires named { table.old ≡ macro_names macros.old.items }
    requires fresh { position_of (macro_names macros.old.items) cell.name ≡ None }
    ensures ok { OnOk result (macros.new.items ≡ macros.old.items ++ cell ∷ []) }
    ensures err { OnErr result (macros.new.items ≡ macros.old.items) }
    ensures named { table.new ≡ macro_names macros.new.items }
{
    let count = table.len();
    table.add(cell.name.as_bytes())?;
    match macros.push(cell) {
        Ok(_) => Ok(()),
        Err(failed) => {
            table.truncate(count);
            Err(failed.into())
        }
    }
}
