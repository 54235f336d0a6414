//! A placement as a text that is read back.

ghost use Rattle.std.specs.Prelude.{◌≡◌, ◌==◌, ◌++◌, IfOk, OnOk, length};
ghost use Rattle.std.specs.List.{flat_map, list_any};
ghost use Rattle.snap_placement.specs.Printed.{cost_line, key_text, place_line, placement_text, places, switch_at};

use itoa::Buffer;
use snap_core::NoMemory;
use snap_core::lists::{Name, Names};
use std::alloc::Global;

/// The text of a placement: its cost in a comment, and a line for each array in the order of their numbers.
///
/// `owners` has the number of each array's switch. The one refusal is want of memory.
pub fn print(
    alloc: Global,
    arrays: &Names,
    switches: &Names,
    owners: &[u16],
    cost: u64,
) -> Result<Vec<u8>, NoMemory>
    requires { length owners.now ≡ length arrays.now }
    ensures { IfOk result (λ text. text.items ≡ placement_text arrays.now switches.now owners.now cost) }
{
    let mut text = Vec::new(alloc);
    put_cost(&mut text, cost)?;
    put_places(&mut text, arrays.items(), switches.items(), owners)?;
    Ok(text)
}

// Puts the line of the cost.
fn put_cost(text: &mut Vec<u8>, cost: u64) -> Result<(), NoMemory>
    ensures { OnOk result (text.new.items ≡ text.old.items ++ cost_line cost) }
{
    let mut digits = Buffer::new();
    text.extend_from_slice(b"# cost ")?;
    text.extend_from_slice(digits.format(cost).as_bytes())?;
    text.push(b'\n')?;
    Ok(())
}

// Puts a line for each array.
fn put_places(
    text: &mut Vec<u8>,
    arrays: &[Name],
    switches: &[Name],
    owners: &[u16],
) -> Result<(), NoMemory>
    requires { length owners.now ≡ length arrays.now }
    ensures { OnOk result (text.new.items ≡ text.old.items ++ flat_map place_line (places arrays.now switches.now owners.now)) }
{
    for (array, name) in arrays.iter().enumerate() {
        put_place(text, name.items(), switch_at(switches, owners[array]))?;
    }
    Ok(())
}

// The name of a switch, or nothing where there is none.
fn switch_at(switches: &[Name], number: u16) -> &[u8]
    ensures { result.now ≡ switch_at switches.now number }
{
    match switches.get(number as usize) {
        Some(name) => name.items(),
        None => &[],
    }
}

// Puts the line of an array and its switch.
fn put_place(text: &mut Vec<u8>, array: &[u8], switch: &[u8]) -> Result<(), NoMemory>
    ensures { OnOk result (text.new.items ≡ text.old.items ++ place_line (array.now, switch.now)) }
{
    put_key(text, array)?;
    text.extend_from_slice(b" = \"")?;
    text.extend_from_slice(switch)?;
    text.extend_from_slice(b"\"\n")?;
    Ok(())
}

// Puts a name as a key.
fn put_key(text: &mut Vec<u8>, name: &[u8]) -> Result<(), NoMemory>
    ensures { OnOk result (text.new.items ≡ text.old.items ++ key_text name.now) }
{
    if !has_dot(name) {
        text.extend_from_slice(name)?;
        return Ok(());
    }
    text.push(b'"')?;
    text.extend_from_slice(name)?;
    text.push(b'"')?;
    Ok(())
}

fn has_dot(name: &[u8]) -> bool
    ensures { result ≡ list_any (λ b. b == 46) name.now }
{
    name.contains(&b'.')
}
