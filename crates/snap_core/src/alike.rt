//! Whether fields and names are the same.

ghost use Rattle.std.specs.Prelude.{◌≡◌, ◌↔◌, IsTrue};

use crate::lists::Name;
use crate::program::Field;

/// Whether two lists of fields are equal. Takes no memory.
pub fn same_fields(left: &[Field], right: &[Field]) -> bool
    ensures { IsTrue result ↔ (left.now ≡ right.now) }
{
    if left.len() != right.len() {
        return false;
    }
    for i in 0..left.len() {
        if !is_same_field(&left[i], &right[i]) {
            return false;
        }
    }
    true
}

fn is_same_field(left: &Field, right: &Field) -> bool
    ensures { IsTrue result ↔ (left.now ≡ right.now) }
{
    left.prefix == right.prefix && is_same_name(&left.name, &right.name)
}

/// Whether two lists of names are equal. Takes no memory.
pub fn same_names(left: &[Name], right: &[Name]) -> bool
    ensures { IsTrue result ↔ (left.now ≡ right.now) }
{
    if left.len() != right.len() {
        return false;
    }
    for i in 0..left.len() {
        if !is_same_name(&left[i], &right[i]) {
            return false;
        }
    }
    true
}

/// Whether two names are equal. Takes no memory.
pub fn is_same_name(left: &Name, right: &Name) -> bool
    ensures { IsTrue result ↔ (left.now ≡ right.now) }
{
    left.items() == right.items()
}
