//! Tables that are proved to be valid.

ghost use Rattle.std.specs.Prelude.{◌≡◌, IfOk};
ghost use Rattle.snap_rows.specs.Form.{IsWellFormed};
ghost use Rattle.snap_rows.specs.Rules.{IsValid};

use crate::calls::proved_valid;
use crate::tables::Tables;
use crate::valid::Valid;
use snap_core::NoMemory;
use std::alloc::Global;
use std::marker::Model;

/// Tables that are proved to keep each rule, without the lists by which packets are traced. Seen as these tables.
#[derive(Drop)]
pub struct Proved {
    tables: Tables,
}

impl Model for Proved {
    ghost use Rattle.snap_rows.specs.declared.tables.Tables.{Tables};

    ghost Value = { Tables };

    ghost use Rattle.snap_rows.specs.Form.{IsWellFormed};
    ghost use Rattle.snap_rows.specs.Rules.{IsValid};

    ghost view = { λ a. a.tables };

    ghost invariant = { λ a. IsWellFormed a.tables × IsValid a.tables };
}

impl Proved {
    /// These tables. Takes no memory.
    pub fn new(tables: Tables) -> Proved
        requires form { IsWellFormed tables }
        requires valid { IsValid tables }
        ensures { result ≡ tables }
    {
        Proved { tables }
    }

    /// Lends the tables. Takes no memory.
    pub fn tables(&self) -> &Tables
        ensures tables { result.now ≡ self.now }
        ensures form { IsWellFormed self.now }
        ensures valid { IsValid self.now }
    {
        &self.tables
    }

    /// The same tables, so that packets can be traced. Refuses for memory alone.
    pub fn valid(self, alloc: Global) -> Result<Valid, NoMemory>
        ensures { IfOk result (λ valid. valid ≡ self) }
    {
        proved_valid(alloc, self.tables)
    }
}
