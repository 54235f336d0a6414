//! Updates that are due, lent by the tables.

ghost use Rattle.std.specs.Prelude.{◌≡◌, ◌<◌, ◌++◌, ◌∷◌, [], IfOk, OnOk, OnErr, length, take, All};
ghost use Rattle.snap_core.specs.Arrays.{updates};
ghost use Rattle.snap_core.specs.Cells.{arrays_of};
ghost use Rattle.snap_core.specs.Fits.{UpdateReads};
ghost use Rattle.snap_rows.specs.Dues.{first_of, seen};

use snap_core::NoMemory;
use snap_core::lists::Updates;
use snap_core::packet::Packet;
use snap_core::policy::Update;
use snap_core::store::Store;
use std::alloc::Global;
use std::marker::Model;

/// The first updates, as many as need no memory: most steps make no more.
#[derive(Clone, Copy)]
enum First<'a> {
    Nothing,
    One(&'a Update),
    Two(&'a Update, &'a Update),
}

// How many these are.
fn count(first: First<'_>) -> usize
    ensures { result ≡ length (first_of first.entry) }
{
    match first {
        First::Nothing => 0,
        First::One(_) => 1,
        First::Two(..) => 2,
    }
}

// The first of these, so many at most.
fn shortened<'a>(first: First<'a>, len: usize) -> First<'a>
    ensures { first_of result ≡ take len (first_of first.entry) }
{
    match first {
        First::Nothing => first,
        First::One(_) => if len == 0 { First::Nothing } else { first },
        First::Two(update, _) => {
            match len {
                0 => First::Nothing,
                1 => First::One(update),
                _ => first,
            }
        }
    }
}

// Puts copies of these behind others.
fn copy_first(first: First<'_>, copies: &mut Vec<Update>) -> Result<(), NoMemory>
    ensures { OnOk result (copies.new.items ≡ copies.old.items ++ first_of first.entry) }
{
    match first {
        First::Nothing => {}
        First::One(update) => copies.push(update.copy()?)?,
        First::Two(update, next) => {
            copies.push(update.copy()?)?;
            copies.push(next.copy()?)?;
        }
    }
    Ok(())
}

// Puts copies of updates behind others.
fn copy_rest(lent: &[&Update], copies: &mut Vec<Update>) -> Result<(), NoMemory>
    ensures { OnOk result (copies.new.items ≡ copies.old.items ++ seen lent.now) }
{
    for update in lent {
        copies.push(update.copy()?)?;
    }
    Ok(())
}

// Does these in order.
#[inline(always)]
fn apply_first(first: First<'_>, store: &mut Store, packet: &Packet) -> Result<(), NoMemory>
    requires { All (UpdateReads (length packet.now)) (first_of first) }
    ensures { OnOk result (arrays_of store.new ≡ updates (arrays_of store.old) (first_of first.entry) packet.now) }
{
    match first {
        First::Nothing => {}
        First::One(update) => store.update(packet, update)?,
        First::Two(update, next) => {
            store.update(packet, update)?;
            store.update(packet, next)?;
        }
    }
    Ok(())
}

// Does these, which are fewer than two.
fn apply_few(first: First<'_>, store: &mut Store, packet: &Packet) -> Result<(), NoMemory>
    requires few { length (first_of first) < 2 }
    requires reads { All (UpdateReads (length packet.now)) (first_of first) }
    ensures ok { OnOk result (arrays_of store.new ≡ updates (arrays_of store.old) (first_of first.entry) packet.now) }
    ensures err { OnErr result (arrays_of store.new ≡ arrays_of store.old) }
{
    match first {
        First::Nothing => Ok(()),
        First::One(update) => store.update(packet, update),
        First::Two(..) => unreachable!(),
    }
}

// Does updates in order.
#[inline(never)]
fn apply_rest(lent: &[&Update], store: &mut Store, packet: &Packet) -> Result<(), NoMemory>
    requires { All (UpdateReads (length packet.now)) (seen lent.now) }
    ensures { OnOk result (arrays_of store.new ≡ updates (arrays_of store.old) (seen lent.now) packet.now) }
{
    for update in lent {
        store.update(packet, update)?;
    }
    Ok(())
}

/// Updates in the order in which they are done, seen as these.
#[derive(Drop)]
pub struct Dues<'a> {
    first: First<'a>,
    rest: Vec<&'a Update>,
}

impl<'a> Model for Dues<'a> {
    ghost use Rattle.std.specs.Prelude.{List, ◌++◌};
    ghost use Rattle.snap_core.specs.declared.policy.Update.{Update};

    ghost Value = { List Update };

    ghost use Rattle.snap_rows.specs.Dues.{first_of, seen};

    ghost view = { λ a. first_of a.first ++ seen a.rest.items };
}

impl<'a> Dues<'a> {
    /// None. Takes no memory.
    pub fn new(alloc: Global) -> Dues<'a>
        ensures { result ≡ [] }
    {
        Dues {
            first: First::Nothing,
            rest: Vec::new(alloc),
        }
    }

    /// Puts one behind the others. Refuses for memory alone.
    #[inline(always)]
    pub fn push(&mut self, update: &'a Update) -> Result<(), NoMemory>
        ensures ok { OnOk result (self.new ≡ self.old ++ update.now ∷ []) }
        ensures err { OnErr result (self.new ≡ self.old) }
    {
        if !self.rest.is_empty() {
            self.rest.push(update)?;
            return Ok(());
        }
        match self.first {
            First::Nothing => self.first = First::One(update),
            First::One(first) => self.first = First::Two(first, update),
            First::Two(..) => self.rest.push(update)?,
        }
        Ok(())
    }

    /// Keeps the first ones, so many. Takes no memory.
    pub fn truncate(&mut self, len: usize)
        ensures { self.new ≡ take len self.old }
    {
        self.rest.truncate(len.saturating_sub(count(self.first)));
        self.first = shortened(self.first, len);
    }

    /// How many these are. Takes no memory.
    pub fn len(&self) -> usize
        ensures { result ≡ length self.now }
    {
        count(self.first) + self.rest.len()
    }

    /// Copies of these. Refuses for memory alone.
    pub fn copies(&self, alloc: Global) -> Result<Updates, NoMemory>
        ensures { IfOk result (λ copies. copies ≡ self.now) }
    {
        let mut copies = Vec::with_capacity(alloc, self.len())?;
        copy_first(self.first, &mut copies)?;
        copy_rest(&self.rest, &mut copies)?;
        Ok(Updates::new(copies))
    }

    /// Does these in order. A refusal, which is for memory alone, leaves those before it done.
    #[inline(always)]
    pub fn apply(&self, store: &mut Store, packet: &Packet) -> Result<(), NoMemory>
        requires { All (UpdateReads (length packet.now)) self.now }
        ensures { OnOk result (arrays_of store.new ≡ updates (arrays_of store.old) self.now packet.now) }
    {
        apply_first(self.first, store, packet)?;
        if self.rest.is_empty() {
            return Ok(());
        }
        apply_rest(&self.rest, store, packet)
    }

    /// Does these in order, all or none: fewer than two without copies of them. Refuses for memory alone.
    #[inline(always)]
    pub fn apply_whole(
        &self,
        alloc: Global,
        store: &mut Store,
        packet: &Packet,
    ) -> Result<(), NoMemory>
        requires { All (UpdateReads (length packet.now)) self.now }
        ensures ok { OnOk result (arrays_of store.new ≡ updates (arrays_of store.old) self.now packet.now) }
        ensures err { OnErr result (arrays_of store.new ≡ arrays_of store.old) }
    {
        if self.rest.is_empty() {
            if count(self.first) < 2 {
                return apply_few(self.first, store, packet);
            }
        }
        let copies = self.copies(alloc)?;
        store.apply(packet, copies.items())
    }
}
