// Arrays with their places.

ghost use Rattle.std.specs.Prelude.{◌≡◌, ◌∷◌, [], IfOk, IfErr, Ok, Err, slice_get};
ghost use Rattle.snap_names.specs.Parts.{words_of, Refuses, place_with};
ghost use Rattle.snap_names.specs.Senses.{value_width, width, value_atoms, atoms_behind, array_of_sense, arity_seen, place};

use crate::fault::NameFault;
use crate::scope::{Scope, Sense, Sizes};
use snap_core::lists::Atoms;
use snap_core::policy::Atom;
use snap_parse::{Span, Value};

/// An array with its index.
#[derive(Drop)]
pub struct Indexed {
    pub var: u16,
    pub index: Atoms,
}

// The number of an array.
fn array_of_sense(at: u32, sense: Sense) -> Result<usize, NameFault>
    ensures { result ≡ array_of_sense at sense }
{
    match sense {
        Sense::Array(array) => Ok(array),
        _ => Err(NameFault::Kind { at }),
    }
}

impl Sizes {
    // Notes that an array is indexed with this many atoms at `at`.
    fn see(&mut self, array: usize, atoms: usize, at: u32) -> Result<(), NameFault>
        ensures ok { IfOk result (λ _. arity_seen self.old.arities.items array atoms at (slice_get self.old.arities.items array) ≡ Ok self.new.arities.items) }
        ensures err { IfErr result (λ f. arity_seen self.old.arities.items array atoms at (slice_get self.old.arities.items array) ≡ Err f) }
        ensures nodes { self.new.nodes ≡ self.old.nodes }
    {
        match self.arities.get(array).copied() {
            Some(Some(seen)) => {
                if seen == atoms {
                    Ok(())
                } else {
                    Err(NameFault::Arity { at })
                }
            }
            Some(None) => {
                self.arities[array] = Some(atoms);
                Ok(())
            }
            None => Ok(()),
        }
    }
}

impl Scope<'_> {
    // How many atoms a value in places gives.
    fn value_width(&self, value: Value) -> usize
        ensures { result ≡ value_width (words_of self.now) value }
    {
        match value {
            Value::Literal(_) | Value::Prefix { .. } => 1,
            Value::Name(name) => match self.sense(name) {
                Ok(Sense::Split { .. }) => 2,
                _ => 1,
            },
        }
    }

    // How many atoms values in places give.
    fn width(&self, values: &[Value]) -> usize
        ensures { result ≡ width (words_of self.now) values.now }
    {
        let mut atoms: usize = 0;
        for value in values {
            atoms += self.value_width(*value);
        }
        atoms
    }

    // Appends the atoms of a value in places.
    fn push_atoms(&self, atoms: &mut Vec<Atom>, value: Value) -> Result<(), NameFault>
        ensures ok { IfOk result (λ _. atoms_behind (words_of self.now) atoms.old.items (value ∷ []) ≡ Ok atoms.new.items) }
        ensures err { Refuses (value_atoms (words_of self.now) value) result }
    {
        match value {
            Value::Literal(literal) => atoms.push(Atom::Num(self.literal(literal)?))?,
            Value::Prefix { address, .. } => return Err(NameFault::Prefix { at: address.from }),
            Value::Name(name) => match self.sense(name)? {
                Sense::Constant { value, .. } => atoms.push(Atom::Num(value))?,
                Sense::Plain(comp) => atoms.push(Atom::Comp(comp))?,
                Sense::Split { net, host, .. } => {
                    atoms.push(Atom::Comp(net))?;
                    atoms.push(Atom::Comp(host))?;
                }
                _ => return Err(NameFault::Kind { at: name.from }),
            },
        }
        Ok(())
    }

    // The atoms of values in places.
    fn atoms(&self, values: &[Value]) -> Result<Vec<Atom>, NameFault>
        ensures ok { IfOk result (λ atoms. atoms_behind (words_of self.now) [] values.now ≡ Ok atoms.items) }
        ensures err { Refuses (atoms_behind (words_of self.now) [] values.now) result }
    {
        let mut atoms = Vec::new(self.alloc);
        for value in values {
            self.push_atoms(&mut atoms, *value)?;
        }
        Ok(atoms)
    }

    /// `name places`
    pub(crate) fn place(
        &self,
        tally: &mut Sizes,
        name: Span,
        places: &[Value],
    ) -> Result<Indexed, NameFault>
        ensures ok { IfOk result (λ p. place (words_of self.now) tally.old.arities.items name places.now ≡ Ok (place_with p tally.new)) }
        ensures err { Refuses (place (words_of self.now) tally.old.arities.items name places.now) result }
        ensures nodes { tally.new.nodes ≡ tally.old.nodes }
    {
        let array = array_of_sense(name.from, self.sense(name)?)?;
        tally.see(array, self.width(places), name.from)?;
        let index = self.atoms(places)?;
        Ok(Indexed {
            var: array.min(65535) as u16,
            index: Atoms::new(index),
        })
    }
}
