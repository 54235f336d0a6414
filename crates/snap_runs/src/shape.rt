//! Whether two tables have one shape.

ghost use Rattle.std.specs.Prelude.{◌≡◌, ◌↔◌, IsTrue};
ghost use Rattle.snap_runs.specs.Reports.{names_of};
ghost use Rattle.snap_runs.specs.Shapes.{HaveOneShape};

use snap_core::alike::{is_same_name, same_fields};
use snap_rows::tables::ArrayAt;
use snap_rows::valid::Valid;

/// Whether two tables have equal fields and equal names of arrays. Takes no memory.
pub fn same_shape(a: &Valid, b: &Valid) -> bool
    ensures { IsTrue result ↔ HaveOneShape a.now b.now }
{
    let left = a.tables();
    let right = b.tables();
    same_fields(left.fields.list(), right.fields.list())
        && same_names(left.arrays.items(), right.arrays.items())
}

fn same_names(left: &[ArrayAt], right: &[ArrayAt]) -> bool
    ensures { IsTrue result ↔ (names_of left.now ≡ names_of right.now) }
{
    if left.len() != right.len() {
        return false;
    }
    for i in 0..left.len() {
        if !is_same_name(&left[i].name, &right[i].name) {
            return false;
        }
    }
    true
}
