//! The program: each key is counted, and where it is new its port too; then packets go to the port across.

ghost use Rattle.std.specs.Prelude.{◌≡◌, ◌≤◌, ◌+◌, ◌∷◌, [], IfOk};
ghost use Rattle.snap_core.specs.declared.policy.Atom.TheVariants.{Comp, Num};
ghost use Rattle.snap_core.specs.declared.policy.Op.TheVariants.{Add};
ghost use Rattle.snap_core.specs.Fields.{plain_field};
ghost use Rattle.snap_core.specs.Programs.{IsWellFormed};
ghost use Rattle.snap_dep.specs.Dependencies.{Tied};
ghost use Rattle.snap_demo.specs.Parts.{IsBody, IsCounting, IsEgress};
ghost use Rattle.snap_demo.specs.Serial.{IsSerial};
ghost use Rattle.snap_demo.specs.Stated.{IsStated, arrays, fields};

use snap_core::NoMemory;
use snap_core::lists::{Atoms, Name, Names};
use snap_core::policy::{Atom, Op, Pol, Pred, Update};
use snap_core::program::{Field, Fields, Program};
use std::alloc::Global;

const INPORT: u16 = 0;

const OUTPORT: u16 = 1;

const KEY: u16 = 2;

const SEEN: u16 = 0;

const COUNT: u16 = 1;

/// The program of so many ports.
pub(crate) fn program(alloc: Global, ports: u16) -> Result<Program, NoMemory>
    ensures stated { IfOk result (IsStated ports) }
    ensures form { IfOk result IsWellFormed }
    ensures serial { IfOk result (λ p. IsSerial p.body) }
    ensures apart { IfOk result (λ p. Tied p.body 0 1 → ⊥) }
{
    Ok(Program {
        fields: fields(alloc)?,
        arrays: arrays(alloc)?,
        body: body(alloc, ports)?,
    })
}

fn fields(alloc: Global) -> Result<Fields, NoMemory>
    ensures { IfOk result (λ made. made ≡ fields) }
{
    let list = field_list(alloc)?;
    Fields::new(alloc, list)
}

fn field_list(alloc: Global) -> Result<Vec<Field>, NoMemory>
    ensures { IfOk result (λ list. list.items ≡ fields) }
{
    let mut fields = Vec::new(alloc);
    fields.push(plain(alloc, b"inport")?)?;
    fields.push(plain(alloc, b"outport")?)?;
    fields.push(plain(alloc, b"key")?)?;
    Ok(fields)
}

// A field of one component.
fn plain(alloc: Global, name: &[u8]) -> Result<Field, NoMemory>
    ensures { IfOk result (λ field. field ≡ plain_field name.now) }
{
    Ok(Field {
        name: Name::of(alloc, name)?,
        prefix: None,
    })
}

fn arrays(alloc: Global) -> Result<Names, NoMemory>
    ensures { IfOk result (λ made. made ≡ arrays) }
{
    let mut names = Vec::new(alloc);
    names.push(Name::of(alloc, b"seen")?)?;
    names.push(Name::of(alloc, b"count")?)?;
    Ok(Names::new(names))
}

fn body(alloc: Global, ports: u16) -> Result<Pol, NoMemory>
    ensures { IfOk result (IsBody ports) }
{
    let counting = counting(alloc)?;
    let egress = egress(alloc, ports)?;
    Ok(Pol::Seq(Box::new(alloc, counting)?, Box::new(alloc, egress)?))
}

// `seen[key]++; if seen[key] = 1 then count[inport]++ else id`
fn counting(alloc: Global) -> Result<Pol, NoMemory>
    ensures { IfOk result IsCounting }
{
    let sees = add_one(alloc, SEEN, KEY)?;
    let is_new = Pred::State {
        var: SEEN,
        index: index(alloc, KEY)?,
        value: Atom::Num(1),
    };
    let counts = Box::new(alloc, Pol::Change(add_one(alloc, COUNT, INPORT)?))?;
    let passes = Box::new(alloc, Pol::Filter(Pred::Id))?;
    let sees = Box::new(alloc, Pol::Change(sees))?;
    Ok(Pol::Seq(sees, Box::new(alloc, Pol::If(is_new, counts, passes))?))
}

// One is added to an array at the place of a component.
fn add_one(alloc: Global, var: u16, comp: u16) -> Result<Update, NoMemory>
    ensures { IfOk result (λ u. u ≡ record { var = var; index = Comp comp ∷ []; op = Add 1 }) }
{
    Ok(Update {
        var,
        index: index(alloc, comp)?,
        op: Op::Add(1),
    })
}

fn index(alloc: Global, comp: u16) -> Result<Atoms, NoMemory>
    ensures { IfOk result (λ atoms. atoms ≡ Comp comp ∷ []) }
{
    let mut atoms = Vec::new(alloc);
    atoms.push(Atom::Comp(comp))?;
    Ok(Atoms::new(atoms))
}

// `if inport = 1 then outport <- N else if inport = 2 then outport <- N - 1 else ..`, made from its end.
fn egress(alloc: Global, ports: u16) -> Result<Pol, NoMemory>
    ensures { IfOk result (IsEgress ports ports) }
{
    let mut rest = Pol::Filter(Pred::Drop);
    for left in 0..ports {
        rest = egress_before(alloc, ports, left, rest)?;
    }
    Ok(rest)
}

// The choice before those for so many last ports.
fn egress_before(alloc: Global, ports: u16, left: u16, rest: Pol) -> Result<Pol, NoMemory>
    requires below { left + 1 ≤ ports }
    requires rest { IsEgress ports left rest }
    ensures { IfOk result (IsEgress ports (left + 1)) }
{
    let test = Pred::Field {
        comp: INPORT,
        num: (ports - left) as u64,
    };
    let yes = Pol::Set {
        comp: OUTPORT,
        from: Atom::Num(left as u64 + 1),
    };
    Ok(Pol::If(test, Box::new(alloc, yes)?, Box::new(alloc, rest)?))
}
