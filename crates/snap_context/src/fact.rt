//! Facts: tests with their answers.

ghost use Rattle.std.specs.Prelude.{◌≡◌, IfOk};

use snap_core::NoMemory;
use snap_core::policy::Test;
use std::alloc::Global;
use std::marker::Model;
use std::rc::Rc;

/// A test that its copies share.
#[derive(Drop)]
pub struct Shared {
    test: Rc<Test>,
}

impl Model for Shared {
    ghost use Rattle.snap_core.specs.declared.policy.Test.{Test};

    ghost Value = { Test };

    ghost view = { λ s. s.test.value };
}

impl Shared {
    /// A copy of the test, in memory that copies of this share. Refuses for memory alone.
    pub fn copy_of(alloc: Global, test: &Test) -> Result<Shared, NoMemory>
        ensures { IfOk result (λ shared. shared ≡ test.now) }
    {
        let copy = test.copy()?;
        match Rc::new(alloc, copy) {
            Ok(test) => Ok(Shared { test }),
            Err(_) => Err(NoMemory),
        }
    }

    /// The test. Takes no memory.
    pub fn test(&self) -> &Test
        ensures { result.now ≡ self.now }
    {
        &self.test
    }

    /// The same test, in the same memory. Refuses for memory alone.
    pub fn share(&self) -> Result<Shared, NoMemory>
        ensures { IfOk result (λ shared. shared ≡ self.now) }
    {
        Ok(Shared {
            test: self.test.clone()?,
        })
    }
}

/// A test, and whether it passes.
#[derive(Drop)]
pub struct Fact {
    pub test: Shared,
    pub yes: bool,
}

impl Fact {
    ghost use Rattle.snap_context.specs.declared.fact.Fact.{Fact};

    /// The same fact. Refuses for memory alone.
    pub fn copy(&self) -> Result<Fact, NoMemory>
        ensures { IfOk result (λ copy. copy ≡ self.now) }
    {
        Ok(Fact {
            test: self.test.share()?,
            yes: self.yes,
        })
    }
}
