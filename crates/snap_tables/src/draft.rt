//! Tables as far as their lines are read.

ghost use Rattle.std.specs.Prelude.{◌≡◌, ◌≤◌, ◌++◌, Some, None, length, IfOk, OnOk};
ghost use Rattle.snap_core.specs.declared.program.Which.{Which};
ghost use Rattle.snap_core.specs.Fields.{IsFields};
ghost use Rattle.snap_tables.specs.Drafts.{IsKept, IsPut, may_come, no_entries, tables_of};
ghost use Rattle.snap_tables.specs.declared.item.Item.TheVariants as item;
ghost use Rattle.snap_tables.specs.Known.{IsBody, row_next};
ghost use Rattle.snap_tables.specs.Entries.{are_new, declared, is_new, next_pair, pair_from, due_pair};
ghost use Rattle.snap_tables.specs.Lines.{counts_of, has_all_hops, is_ready, last_section, over};

use crate::item::{Body, Item, NextRow};
use crate::piece::Counts;
use snap_core::NoMemory;
use snap_core::lists::{Name, Names};
use snap_core::ports::{Links, PortAt, Ports};
use snap_core::program::{Field, Fields, Which};
use snap_rows::lists::{ArraysAt, Hops, Rows};
use snap_rows::tables::{ArrayAt, Hop, RowAt, Tables};
use std::alloc::Global;

/// Tables as far as their lines are read, the number of their components, and the names of their fields and components.
#[derive(Drop)]
pub(crate) struct TablesDraft {
    pub version: u8,
    pub comps: u16,
    pub names: Vec<Name>,
    pub fields: Vec<Field>,
    pub switches: Vec<Name>,
    pub arrays: Vec<ArrayAt>,
    pub links: Vec<(u16, u16)>,
    pub ports: Vec<PortAt>,
    pub hops: Vec<Hop>,
    pub rows: Rows,
}

/// Whether none of these names is that one.
pub(crate) fn is_new(names: &[Name], name: &[u8]) -> bool
    ensures { result ≡ is_new names.now name.now }
{
    let mut rest = names;
    while let Some((other, more)) = rest.split_first() {
        if name == other.items() {
            return false;
        }
        rest = more;
    }
    true
}

/// Whether none of these names is among those.
pub(crate) fn are_new(names: &[Name], more: &[Name]) -> bool
    ensures { result ≡ are_new names.now more.now }
{
    let mut rest = more;
    while let Some((name, behind)) = rest.split_first() {
        if !is_new(names, name.items()) {
            return false;
        }
        rest = behind;
    }
    true
}

fn joined(alloc: Global, front: &[u8], back: &[u8]) -> Result<Name, NoMemory>
    ensures { IfOk result (λ name. name ≡ front.now ++ back.now) }
{
    let mut bytes = Vec::from_slice(alloc, front)?;
    bytes.extend_from_slice(back)?;
    Ok(Name::new(bytes))
}

// Adds the names that a field declares.
fn add_names(
    alloc: Global,
    names: &mut Vec<Name>,
    name: &[u8],
    prefix: Option<u8>,
) -> Result<(), NoMemory>
    ensures { OnOk result (names.new.items ≡ names.old.items ++ declared name.now prefix) }
{
    names.push(Name::of(alloc, name)?)?;
    if prefix.is_some() {
        names.push(joined(alloc, name, b".net")?)?;
        names.push(joined(alloc, name, b".host")?)?;
    }
    Ok(())
}

/// The names that a field declares.
pub(crate) fn declared(
    alloc: Global,
    name: &[u8],
    prefix: Option<u8>,
) -> Result<Vec<Name>, NoMemory>
    ensures { IfOk result (λ names. names.items ≡ declared name.now prefix) }
{
    let mut names = Vec::new(alloc);
    add_names(alloc, &mut names, name, prefix)?;
    Ok(names)
}

// The pair of this switch and that one, or else the first of the next switch.
fn pair_from(switches: u32, from: u32, target: u32) -> (u32, u32)
    requires { from ≤ 65535 }
    ensures { result ≡ pair_from switches from target }
{
    if target < switches {
        (from, target)
    } else {
        (from + 1, 0)
    }
}

fn next_pair(switches: u32, from: u32, target: u32) -> (u32, u32)
    requires from { from ≤ 65535 }
    requires target { target ≤ 65535 }
    ensures { result ≡ next_pair switches (from, target) }
{
    if target + 1 == from {
        pair_from(switches, from, target + 2)
    } else {
        pair_from(switches, from, target + 1)
    }
}

// The count of entries, where it is more than may be.
fn over(which: Which, most: u64, count: u64) -> Option<(Which, u64)>
    ensures { result ≡ over which most count }
{
    if most < count {
        Some((which, count))
    } else {
        None
    }
}

impl TablesDraft {
    /// Tables of which the first line alone is read.
    pub(crate) fn new(alloc: Global, version: u8) -> TablesDraft
        ensures tables { tables_of result ≡ no_entries version }
        ensures kept { IsKept result }
    {
        TablesDraft {
            version,
            comps: 0,
            names: Vec::new(alloc),
            fields: Vec::new(alloc),
            switches: Vec::new(alloc),
            arrays: Vec::new(alloc),
            links: Vec::new(alloc),
            ports: Vec::new(alloc),
            hops: Vec::new(alloc),
            rows: Rows::new(Vec::new(alloc), Vec::new(alloc)),
        }
    }

    /// The number of switches.
    pub(crate) fn switch_count(&self) -> u16
        requires { IsKept self.now }
        ensures { result ≡ length self.now.switches.items }
    {
        self.switches.len() as u16
    }

    /// The counts of components, arrays and switches.
    pub(crate) fn counts(&self) -> Counts
        requires { IsKept self.now }
        ensures { result ≡ counts_of (tables_of self.now) }
    {
        Counts {
            comps: self.comps,
            arrays: self.arrays.len() as u16,
            switches: self.switches.len() as u16,
        }
    }

    // The last section that has begun.
    fn last_section(&self) -> u8
        ensures { result ≡ last_section (tables_of self.now) }
    {
        if self.rows.len() > 0 {
            return 7;
        }
        if !self.hops.is_empty() {
            return 6;
        }
        if !self.ports.is_empty() {
            return 5;
        }
        if !self.links.is_empty() {
            return 4;
        }
        if !self.arrays.is_empty() {
            return 3;
        }
        if self.switches.is_empty() { 1 } else { 2 }
    }

    /// The pair of switches whose next hop comes next.
    pub(crate) fn due_pair(&self) -> (u32, u32)
        requires { IsKept self.now }
        ensures { result ≡ due_pair (length self.now.switches.items) self.now.hops.items }
    {
        match self.hops.last() {
            None => (0, 1),
            Some(last) => next_pair(
                u32::from(self.switch_count()),
                u32::from(last.from),
                u32::from(last.target),
            ),
        }
    }

    fn has_all_hops(&self) -> bool
        requires { IsKept self.now }
        ensures { result ≡ has_all_hops (tables_of self.now) }
    {
        let count = u32::from(self.switch_count());
        let due_pair = self.due_pair();
        count <= due_pair.0 || count <= due_pair.1
    }

    /// Whether the sections before a section are whole.
    pub(crate) fn is_ready(&self, section: u8) -> bool
        requires { IsKept self.now }
        ensures { result ≡ is_ready (tables_of self.now) section }
    {
        (section < 2 || 2 <= self.fields.len())
            && (section < 3 || !self.switches.is_empty())
            && (section < 7 || self.has_all_hops())
    }

    /// Whether an entry of a section may come.
    pub(crate) fn may_come(&self, section: u8) -> bool
        requires { IsKept self.now }
        ensures { result ≡ may_come (tables_of self.now) section }
    {
        self.last_section() <= section && self.is_ready(section)
    }

    /// The tables.
    pub(crate) fn tables(self, alloc: Global) -> Result<Tables, NoMemory>
        requires { IsFields self.fields.items }
        ensures { IfOk result (λ tables. tables ≡ tables_of self) }
    {
        let mut rows = self.rows;
        rows.shrink();
        Ok(Tables {
            version: self.version,
            fields: Fields::new(alloc, self.fields)?,
            switches: Names::new(self.switches),
            arrays: ArraysAt::new(self.arrays),
            links: Links::new(self.links),
            ports: Ports::new(self.ports),
            hops: Hops::new(self.hops),
            rows,
        })
    }

    // Puts a field.
    #[tactic(auto, using(crate::proofs::FieldCounts::count_push, crate::proofs::FieldCounts::all_declared_push))]
    fn put_field(&mut self, alloc: Global, field: Field) -> Result<Option<(Which, u64)>, NoMemory>
        requires { IsKept self.old }
        ensures { IfOk result (λ past. IsPut self.old (item.Field field) past self.new) }
    {
        add_names(alloc, &mut self.names, field.name.items(), field.prefix)?;
        self.comps += field.width();
        self.fields.push(field)?;
        Ok(over(Which::Components, 64, u64::from(self.comps)))
    }

    /// Puts a next hop.
    #[inline(always)]
    pub(crate) fn put_hop(&mut self, hop: Hop) -> Result<(), NoMemory>
        requires { IsKept self.old }
        ensures { OnOk result (IsPut self.old (item.Hop hop) None self.new) }
    {
        self.hops.push(hop)?;
        Ok(())
    }

    /// Puts a row.
    #[inline(always)]
    pub(crate) fn put_row(&mut self, row: NextRow) -> Result<(), NoMemory>
        requires kept { IsKept self.old }
        requires placed { IsBody self.old.rows row.body }
        ensures { OnOk result (IsPut self.old (item.Row (row_next self.old.rows row)) None self.new) }
    {
        let NextRow { at, number, body } = row;
        match body {
            Body::Own(row) => self.rows.push(RowAt { at, number, row }),
            Body::Same(place) => self.rows.push_as(at, number, place),
        }
    }

    /// Puts an entry behind those of its section, and says the count that it passes, if it passes one.
    pub(crate) fn put(
        &mut self,
        alloc: Global,
        item: Item,
    ) -> Result<Option<(Which, u64)>, NoMemory>
        requires { IsKept self.old }
        ensures { IfOk result (λ past. IsPut self.old item past self.new) }
    {
        match item {
            Item::Field(field) => self.put_field(alloc, field),
            Item::Switch(name) => {
                self.switches.push(name)?;
                Ok(over(Which::Switches, 256, self.switches.len() as u64))
            }
            Item::Array(array) => {
                self.arrays.push(array)?;
                Ok(over(Which::Arrays, 64, self.arrays.len() as u64))
            }
            Item::Link(link) => {
                self.links.push(link)?;
                Ok(over(Which::Links, 4_096, self.links.len() as u64))
            }
            Item::Port(port) => {
                self.ports.push(port)?;
                Ok(over(Which::Ports, 1_024, self.ports.len() as u64))
            }
            Item::Hop(hop) => {
                self.put_hop(hop)?;
                Ok(None)
            }
            Item::Row(row) => {
                self.rows.push(row)?;
                Ok(None)
            }
        }
    }
}
