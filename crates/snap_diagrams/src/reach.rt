//! Which nodes are reached from some numbers: a look before a call, which comes to these alone and not to what else stands
//! among the nodes.

ghost use Rattle.std.specs.Prelude.{◌≡◌, ◌<◌, All, IfOk, IfSome, OnOk, Some, length, slice_get};

use crate::leaf::Leaf;
use crate::node::Node;
use crate::nodes::Nodes;
use crate::pick::look;
use snap_core::NoMemory;
use std::alloc::Global;

/// Numbers of nodes, each behind its ways, and the place of each among them.
#[derive(Drop)]
pub struct Reached {
    pub ids: Vec<u64>,
    // Where a number may stand, a page for each run of numbers of which one does. Elsewhere it is any place.
    pages: Vec<Vec<usize>>,
}

// How many numbers a page has.
const PAGE: usize = 64;

// For how many numbers there is room at first: most diagrams that are looked at are of fewer nodes.
const FEW: usize = 32;

impl Reached {
    // No numbers.
    fn new(alloc: Global) -> Result<Reached, NoMemory>
        ensures { IfOk result (λ reached. length reached.ids.items ≡ 0) }
    {
        Ok(Reached {
            ids: Vec::with_capacity(alloc, FEW)?,
            pages: Vec::new(alloc),
        })
    }

    /// The place of a number, where it is reached.
    pub fn place(&self, id: u64) -> Option<usize>
        ensures { IfSome result (λ place. slice_get self.now.ids.items place ≡ Some id) }
    {
        let page = self.pages.get(id as usize / PAGE)?;
        let place = *page.get(id as usize % PAGE)?;
        if self.ids.get(place) == Some(&id) {
            Some(place)
        } else {
            None
        }
    }

    // Gives a number the next place.
    fn put(&mut self, alloc: Global, id: u64, count: u64) -> Result<(), NoMemory>
        requires id { id < count }
        requires below { All (λ d. d < count) self.old.ids.items }
        ensures { OnOk result (All (λ d. d < count) self.new.ids.items) }
    {
        note_place(alloc, &mut self.pages, id as usize, self.ids.len())?;
        self.ids.push(id)?;
        Ok(())
    }
}

// Takes note of a number's place on its page, which is made where there is none.
fn note_place(
    alloc: Global,
    pages: &mut Vec<Vec<usize>>,
    id: usize,
    place: usize,
) -> Result<(), NoMemory> {
    for _ in pages.len()..id / PAGE + 1 {
        pages.push(Vec::new(alloc))?;
    }
    if let Some(page) = pages.get_mut(id / PAGE) {
        if page.is_empty() {
            *page = vec![in alloc; 0; PAGE]?;
        }
        if let Some(noted) = page.get_mut(id % PAGE) {
            *noted = place;
        }
    }
    Ok(())
}

// A number that waits for its place, and whether its ways have theirs.
#[derive(Clone, Copy)]
struct Step {
    id: u64,
    ways_placed: bool,
}

// Has a number wait until its ways have their places, unless it has one itself.
fn wait(
    nodes: &Nodes<Leaf>,
    reached: &Reached,
    left: &mut Vec<Step>,
    id: u64,
) -> Result<(), NoMemory>
    requires id { id < length nodes.now }
    requires left { All (λ step. step.id < length nodes.now) left.old.items }
    ensures { OnOk result (All (λ step. step.id < length nodes.now) left.new.items) }
{
    if reached.place(id).is_some() {
        return Ok(());
    }
    left.push(Step {
        id,
        ways_placed: true,
    })?;
    if let Node::Ask { test: _, yes, no } = look(nodes, id) {
        left.push(Step {
            id: *no,
            ways_placed: false,
        })?;
        left.push(Step {
            id: *yes,
            ways_placed: false,
        })?;
    }
    Ok(())
}

// Gives all that is reached from a number its places.
fn add(nodes: &Nodes<Leaf>, reached: &mut Reached, root: u64) -> Result<(), NoMemory>
    requires root { root < length nodes.now }
    requires below { All (λ d. d < length nodes.now) reached.old.ids.items }
    ensures { OnOk result (All (λ d. d < length nodes.now) reached.new.ids.items) }
{
    let alloc = nodes.allocator();
    let mut left = Vec::with_capacity(alloc, FEW)?;
    left.push(Step {
        id: root,
        ways_placed: false,
    })?;
    'waiting: for _ in 0..u64::MAX {
        let Some(step) = left.pop() else {
            break 'waiting;
        };
        if step.ways_placed {
            reached.put(alloc, step.id, nodes.count())?;
        } else {
            wait(nodes, reached, &mut left, step.id)?;
        }
    }
    Ok(())
}

/// The nodes that are reached from these numbers, and these. Refuses for memory alone.
pub fn reach_from(nodes: &Nodes<Leaf>, roots: &[u64]) -> Result<Reached, NoMemory>
    requires { All (λ d. d < length nodes.now) roots.now }
    ensures { IfOk result (λ reached. All (λ d. d < length nodes.now) reached.ids.items) }
{
    let alloc = nodes.allocator();
    let mut reached = Reached::new(alloc)?;
    for root in roots {
        add(nodes, &mut reached, *root)?;
    }
    Ok(reached)
}

// Marks a place that is met, and one that is met again.
fn meet(once: &mut [bool], again: &mut [bool], place: usize)
    ensures { (length once.new ≡ length once.old) × (length again.new ≡ length again.old) }
{
    if place < once.len() && place < again.len() {
        if once[place] {
            again[place] = true;
        }
        once[place] = true;
    }
}

/// Which places have numbers that are ways of several tests. No clause says so: it serves for what is worth
/// remembering, and no answer rests on it. Refuses for memory alone.
pub fn joins(nodes: &Nodes<Leaf>, reached: &Reached) -> Result<Vec<bool>, NoMemory>
    requires { All (λ d. d < length nodes.now) reached.now.ids.items }
{
    let mut once = vec![in nodes.allocator(); false; reached.ids.len()]?;
    let mut again = vec![in nodes.allocator(); false; reached.ids.len()]?;
    for id in &reached.ids {
        if let Node::Ask { yes, no, .. } = nodes.get(*id) {
            for way in [*yes, *no] {
                if let Some(place) = reached.place(way) {
                    meet(&mut once, &mut again, place);
                }
            }
        }
    }
    Ok(again)
}
