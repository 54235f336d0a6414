//! Changes of a store that are not yet done in it.

ghost use Rattle.std.specs.Prelude.{◌≡◌, [], OnOk, length};
ghost use Rattle.snap_core.specs.Arrays.{Arrays, put, update};
ghost use Rattle.snap_core.specs.Cells.{arrays_of, held, overlaid};
ghost use Rattle.snap_core.specs.Fits.{UpdateReads};

use crate::NoMemory;
use crate::atoms::index_on;
use crate::packet::Packet;
use crate::patch::Patch;
use crate::policy::{Op, Update};
use crate::store::Store;
use std::alloc::Global;
use std::collections::BTreeMap;
use std::marker::Model;

/// Numbers at places, which lie over a store: a place that was changed has its number here, and each other place
/// the store's.
#[derive(Drop)]
pub(crate) struct Changes {
    alloc: Global,
    patches: BTreeMap<u16, Patch>,
}

impl Model for Changes {
    ghost use Rattle.snap_core.specs.Cells.{Changed};

    ghost Value = { Changed };

    ghost view = { λ a. a.patches.entries };
}

impl Changes {
    pub(crate) fn new(alloc: Global) -> Changes
        ensures { result ≡ [] }
    {
        Changes {
            alloc,
            patches: BTreeMap::new(alloc),
        }
    }

    /// The number at a place, over a store.
    pub(crate) fn number(&self, store: &Store, var: u16, index: &[u64]) -> u64
        ensures { result ≡ overlaid (arrays_of store.now) self.now (record { var = var; index = index.now }) }
    {
        match self.held(var, index) {
            Some(number) => number,
            None => store.get(var, index),
        }
    }

    // The number that was put at a place, if one was.
    fn held(&self, var: u16, index: &[u64]) -> Option<u64>
        ensures { result ≡ held self.now (record { var = var; index = index.now }) }
    {
        match self.patches.get(&var) {
            Some(patch) => patch.get(index),
            None => None,
        }
    }

    // Puts a number at a place.
    fn put(&mut self, var: u16, index: Vec<u64>, value: u64) -> Result<(), NoMemory>
        ensures { (m : Arrays) → OnOk result (overlaid m self.new ≡ put (overlaid m self.old) (record { var = var; index = index.items }) value) }
    {
        if let Some(patch) = self.patches.get_mut(&var) {
            return patch.put(index, value);
        }
        let mut patch = Patch::new(self.alloc);
        patch.put(index, value)?;
        self.patches.insert(var, patch)?;
        Ok(())
    }

    /// Does one update, over a store.
    pub(crate) fn update(
        &mut self,
        store: &Store,
        packet: &Packet,
        change: &Update,
    ) -> Result<(), NoMemory>
        requires { UpdateReads (length packet.now) change.now }
        ensures { OnOk result (overlaid (arrays_of store.now) self.new ≡ update (overlaid (arrays_of store.now) self.old) change.now packet.now) }
    {
        let index = index_on(self.alloc, &change.index, packet)?;
        let value = match change.op {
            Op::Put(atom) => atom.value(packet),
            Op::Add(plus) => self.number(store, change.var, &index).wrapping_add(plus),
        };
        self.put(change.var, index, value)
    }

    /// The changes of each variable.
    pub(crate) fn patches(&self) -> &BTreeMap<u16, Patch>
        ensures { result.now.entries ≡ self.now }
    {
        &self.patches
    }

    pub(crate) fn into_patches(self) -> BTreeMap<u16, Patch>
        ensures { result.entries ≡ self }
    {
        self.patches
    }
}
