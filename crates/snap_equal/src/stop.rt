//! Questions that a context may not decide.

ghost use Rattle.std.specs.Prelude.{◌≡◌, MatchResult, true};
ghost use Rattle.snap_core.specs.Tests.{passes};
ghost use Rattle.snap_equal.specs.Inputs.{IsTest, space};
ghost use Rattle.snap_equal.specs.Told.{IsStop, Decides};

use snap_context::context::{Context, Verdict};
use snap_core::NoMemory;
use snap_core::policy::Test;

/// Why a question has no answer under a context.
#[derive(Drop)]
pub enum Stop {
    /// Some stores and packets that meet the context pass the test, and some don't.
    Split(Test),
    NoMemory,
}

impl From<NoMemory> for Stop {
    ghost use Rattle.snap_equal.specs.declared.stop.Stop.TheVariants.{NoMemory};

    ghost from_gives = { λ _ stop. stop ≡ NoMemory };

    fn from(_: NoMemory) -> Stop {
        Stop::NoMemory
    }
}

/// Whether a test on a program of so many variables passes.
pub(crate) fn holds(ctx: &Context, arrays: u16, test: Test) -> Result<bool, Stop>
    requires { IsTest (space ctx.now arrays) test }
    ensures { MatchResult result (Decides ctx.now (λ m k. passes test m k ≡ true)) (IsStop ctx.now arrays) }
{
    match ctx.decide(&test)? {
        Verdict::Always => Ok(true),
        Verdict::Never => Ok(false),
        Verdict::Unsure => Err(Stop::Split(test)),
    }
}
