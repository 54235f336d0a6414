//! Classes named by the components that are asked about.

ghost use Rattle.std.specs.Prelude.{◌<◌, ◌≤◌, IfOk, length};
ghost use Rattle.snap_context.specs.Known.{AreRenamed};

use crate::classes::{class_at, put_root};
use crate::sets::is_in;
use snap_core::NoMemory;
use snap_core::policy::Term;
use std::alloc::Global;

// Names the class of a component by it, where none of a set that is less names it.
fn rename(classes: &mut [Term], comps: u64, comp: u16)
    requires { comp < length classes.old }
    ensures { AreRenamed classes.old classes.new }
{
    if let Term::Plus { comp: root, plus } = class_at(classes, comp) {
        if root != comp && !(root < comp && is_in(comps, root)) {
            let to = Term::Plus {
                comp,
                plus: 0u64.wrapping_sub(plus),
            };
            put_root(classes, root, to);
        }
    }
}

/// The classes, each named by the least of its components in a set, where it has one: so they don't depend on which of the
/// components outside was found equal last.
pub(crate) fn named(alloc: Global, classes: &[Term], comps: u64) -> Result<Vec<Term>, NoMemory>
    requires { length classes.now ≤ 64 }
    ensures { IfOk result (λ named. AreRenamed classes.now named.items) }
{
    let mut named = Vec::from_slice(alloc, classes)?;
    for comp in 0..classes.len() as u16 {
        if is_in(comps, comp) {
            rename(named.as_mut_slice(), comps, comp);
        }
    }
    Ok(named)
}
