//! The rows of numbers: each number's node, and which numbers have field rows.

ghost use Rattle.std.specs.Prelude.{◌≡◌, ◌≢◌, ◌↔◌, ℕ, None, IfOk, OnOk, IsTrue, All, length, option_map, Some};
ghost use Rattle.std.specs.BTreeMap.{get};
ghost use Rattle.std.specs.Ordering.{nat_cmp};
ghost use Rattle.snap_rows.specs.declared.tables.RowAt.{RowAt};
ghost use Rattle.snap_rows.specs.Entries.{is_node, node_of};
ghost use Rattle.snap_rows.specs.Rules.{IsFieldRow};
ghost use Rattle.snap_rows.specs.Standing.{AreNodesFrom, AreFieldsTo, place_in};

use crate::lists::Lent;
use crate::rules::kind::is_field;
use crate::tables::{Row, Tables};
use snap_core::NoMemory;
use std::alloc::Global;
use std::collections::BTreeMap;

// Whether a row says what is to be done with its number.
fn is_node(row: &Row) -> bool
    ensures { result ≡ is_node row.now }
{
    match row {
        Row::Go { .. } => false,
        Row::Stop => false,
        Row::Field { .. } => true,
        Row::State { .. } => true,
        Row::Leaf { .. } => true,
        Row::Last { .. } => true,
    }
}

/// Places among the rows, for some numbers. Those of low numbers stand by position, so that most are found at once;
/// those of others in a map.
#[derive(Drop)]
pub(crate) struct Numbered {
    low: Vec<Option<usize>>,
    high: BTreeMap<u64, usize>,
}

impl Numbered {
    // No places yet, with room by position for the numbers below this one.
    fn new(alloc: Global, below: usize) -> Result<Numbered, NoMemory>
        ensures none { IfOk result (λ m. (n : ℕ) → place_in m n ≡ None) }
        ensures low { IfOk result (λ m. length m.low.items ≡ below) }
    {
        Ok(Numbered {
            low: vec![in alloc; None; below]?,
            high: BTreeMap::new(alloc),
        })
    }

    // Puts the place of a number, instead of the one that it had.
    fn put(&mut self, number: u64, place: usize) -> Result<(), NoMemory>
        ensures here { OnOk result (place_in self.new number ≡ Some place) }
        ensures others { OnOk result ((n : ℕ) → number ≢ n → place_in self.new n ≡ place_in self.old n) }
        ensures low { length self.new.low.items ≡ length self.old.low.items }
    {
        if number < self.low.len() as u64 {
            self.low[number as usize] = Some(place);
        } else {
            self.high.insert(number, place)?;
        }
        Ok(())
    }

    // The place of a number.
    fn place(&self, number: u64) -> Option<usize>
        ensures { result ≡ place_in self.now number }
    {
        if number < self.low.len() as u64 {
            return self.low[number as usize];
        }
        match self.high.get(&number) {
            Some(place) => Some(*place),
            None => None,
        }
    }

    /// All places in a map, where none stand by position.
    pub(crate) fn into_map(self) -> BTreeMap<u64, usize>
        requires { length self.low.items ≡ 0 }
        ensures { (n : ℕ) → get nat_cmp result n ≡ place_in self n }
    {
        self.high
    }
}

/// The place among the rows of each number's node, by position for the numbers below this one.
pub(crate) fn nodes(alloc: Global, tables: &Tables, below: usize) -> Result<Numbered, NoMemory>
    ensures nodes { IfOk result (λ m. AreNodesFrom tables.now 0 (place_in m)) }
    ensures low { IfOk result (λ m. length m.low.items ≡ below) }
{
    let rows = &tables.rows;
    let mut nodes = Numbered::new(alloc, below)?;
    for turn in 0..rows.len() {
        let at = rows.len() - turn - 1;
        let entry = rows.at(at);
        if is_node(entry.row) {
            nodes.put(entry.number, at)?;
        }
    }
    Ok(nodes)
}

/// The node of a number.
pub(crate) fn node<'a>(tables: &'a Tables, nodes: &Numbered, number: u64) -> Option<&'a Row>
    requires { AreNodesFrom tables.now 0 (place_in nodes.now) }
    ensures { option_map (λ r. r.now) result ≡ node_of tables.now number }
{
    match nodes.place(number) {
        Some(place) => Some(tables.rows.at(place).row),
        None => None,
    }
}

// Adds a row's number, if it is a field row.
fn add_field(fields: &mut Numbered, entry: Lent<'_>, place: usize) -> Result<(), NoMemory>
    ensures { OnOk result ((n : ℕ) → (place_in fields.new n ≡ None) ↔ ((place_in fields.old n ≡ None) × (entry.entry.number ≡ n → ¬ IsFieldRow entry.entry.row.now))) }
{
    if is_field(entry.row) {
        fields.put(entry.number, place)?;
    }
    Ok(())
}

/// The numbers that have field rows, each with the place of one.
pub(crate) fn fields(alloc: Global, tables: &Tables) -> Result<Numbered, NoMemory>
    ensures { IfOk result (λ m. AreFieldsTo tables.now (length tables.now.rows) (place_in m)) }
{
    let rows = &tables.rows;
    let mut fields = Numbered::new(alloc, rows.len())?;
    for place in 0..rows.len() {
        add_field(&mut fields, rows.at(place), place)?;
    }
    Ok(fields)
}

/// Whether a number has no field row.
pub(crate) fn has_no_field(tables: &Tables, fields: &Numbered, number: u64) -> bool
    requires { AreFieldsTo tables.now (length tables.now.rows) (place_in fields.now) }
    ensures { IsTrue result ↔ All (λ (r : RowAt). r.number ≡ number → ¬ IsFieldRow r.row) tables.now.rows }
{
    fields.place(number).is_none()
}
