//! Outs of two leaves, each once.

ghost use Rattle.std.specs.Prelude.{◌≡◌, IfOk, OnOk};
ghost use Rattle.std.specs.Bool.{Decides};
ghost use Rattle.std.specs.Str.{bytes_eq};
ghost use Rattle.snap_diagrams.specs.LeafCodes.{out_code};
ghost use Rattle.snap_compose.specs.United.{Knows, has_code, with_out, with_outs, united};

use snap_core::NoMemory;
use snap_core::lists::Out;
use snap_core::policy::Atom;
use snap_diagrams::leaf_codes::push_out;
use snap_diagrams::numbers::Numbers;
use std::alloc::Global;

// Up to so many of each, comparing them one by one is cheaper than a map.
const FEW: usize = 4;

// Adds an out that isn't there yet. The codes of those that are there are known.
fn add_once(
    kept: &mut Vec<Out>,
    codes: &mut Numbers,
    alloc: Global,
    out: &Out,
) -> Result<(), NoMemory>
    requires { Knows codes.old kept.old.items }
    ensures kept { OnOk result (kept.new.items ≡ with_out kept.old.items out.now) }
    ensures codes { OnOk result (Knows codes.new kept.new.items) }
{
    // Each part takes four numbers, and the end one.
    let room = out.parts().len().saturating_mul(4).saturating_add(1);
    let mut code = Vec::with_capacity(alloc, room)?;
    push_out(&mut code, out)?;
    if codes.get(&code).is_none() {
        kept.push(out.copy()?)?;
        codes.put(code, 0)?;
    }
    Ok(())
}

// Adds those that aren't there yet.
fn add_all(
    kept: &mut Vec<Out>,
    codes: &mut Numbers,
    alloc: Global,
    outs: &[Out],
) -> Result<(), NoMemory>
    requires { Knows codes.old kept.old.items }
    ensures kept { OnOk result (kept.new.items ≡ with_outs kept.old.items outs.now) }
    ensures codes { OnOk result (Knows codes.new kept.new.items) }
{
    for out in outs {
        add_once(kept, codes, alloc, out)?;
    }
    Ok(())
}

// Whether parts are spelled the same.
fn same_parts(a: &[(u16, Atom)], b: &[(u16, Atom)]) -> bool
    ensures { Decides result (a.now ≡ b.now) }
{
    a == b
}

fn same_out(a: &Out, b: &Out) -> bool
    ensures { result ≡ bytes_eq (out_code a.now) (out_code b.now) }
{
    same_parts(a.parts(), b.parts())
}

fn is_among(outs: &[Out], out: &Out) -> bool
    ensures { result ≡ has_code (out_code out.now) outs.now }
{
    for other in outs {
        if same_out(other, out) {
            return true;
        }
    }
    false
}

// The same as `add_all`, one by one.
fn add_few(kept: &mut Vec<Out>, outs: &[Out]) -> Result<(), NoMemory>
    ensures { OnOk result (kept.new.items ≡ with_outs kept.old.items outs.now) }
{
    for out in outs {
        if !is_among(kept, out) {
            kept.push(out.copy()?)?;
        }
    }
    Ok(())
}

fn unite_few(alloc: Global, first: &[Out], second: &[Out]) -> Result<Vec<Out>, NoMemory>
    ensures { IfOk result (λ outs. outs.items ≡ united first.now second.now) }
{
    let mut kept = Vec::new(alloc);
    add_few(&mut kept, first)?;
    add_few(&mut kept, second)?;
    Ok(kept)
}

fn unite_many(alloc: Global, first: &[Out], second: &[Out]) -> Result<Vec<Out>, NoMemory>
    ensures { IfOk result (λ outs. outs.items ≡ united first.now second.now) }
{
    let mut kept = Vec::new(alloc);
    let mut codes = Numbers::new(alloc);
    add_all(&mut kept, &mut codes, alloc, first)?;
    add_all(&mut kept, &mut codes, alloc, second)?;
    Ok(kept)
}

/// The outs of two leaves, each once: of those that are spelled the same, the first. Many are found by a hash.
/// Refuses for memory alone.
pub fn unite(alloc: Global, first: &[Out], second: &[Out]) -> Result<Vec<Out>, NoMemory>
    ensures { IfOk result (λ outs. outs.items ≡ united first.now second.now) }
{
    if first.len() <= FEW && second.len() <= FEW {
        return unite_few(alloc, first, second);
    }
    unite_many(alloc, first, second)
}
