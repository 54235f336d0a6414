// Declarations.

ghost use Rattle.std.specs.Prelude.{◌≡◌, ◌≢◌, ◌++◌, [], ◌∷◌, IfOk, IfErr, OnOk, Ok, Err, ℕ, true, false, is_some};
ghost use Rattle.snap_parse.specs.Tree.{policy_tree, decl_tree, field_tree, array_tree, const_tree, let_tree};
ghost use Rattle.snap_names.specs.Senses.{Arities, word};
ghost use Rattle.snap_names.specs.Reading.{read_policy};
ghost use Rattle.snap_names.specs.Declarations.{ports, short, prefix_length, is_field_known, AddsField};
ghost use Rattle.snap_names.specs.Spells.{is_known};
ghost use Rattle.snap_names.specs.Parts.{Reads, names_in};
ghost use Rattle.snap_names.specs.Scopes.{HasDeclared, Declares, FieldDeclared};
ghost use Rattle.snap_names.specs.declared.fault.NameFault.TheVariants.{NoMemory, Twice};

use crate::fault::NameFault;
use crate::scope::{Body, Part, Scope, Sense, Sizes};
use crate::sizes::MOST_KEPT;
use crate::values::is_address;
use indexmap::IndexMap;
use snap_core::lists::Name;
use snap_core::program::Field;
use snap_parse::{Decl, Literal, Policy, Span};
use std::alloc::Global;

// Names joined: the front with the back behind it.
fn joined(alloc: Global, front: &[u8], back: &[u8]) -> Result<Vec<u8>, NameFault>
    ensures ok { IfOk result (λ name. name.items ≡ front.now ++ back.now) }
    ensures err { IfErr result (λ f. f ≡ NoMemory) }
{
    let mut name = Vec::from_slice(alloc, front)?;
    name.extend_from_slice(back)?;
    Ok(name)
}

// Declares a name, behind those before where it is new.
fn add(names: &mut IndexMap<Vec<u8>, Sense>, name: Vec<u8>, sense: Sense) -> Result<(), NameFault>
    ensures ok { OnOk result (is_known (names_in names.old.entries) name.items ≡ false → names_in names.new.entries ≡ names_in names.old.entries ++ (name.items, sense) ∷ []) }
    ensures err { IfErr result (λ f. f ≡ NoMemory) }
{
    names.insert(name, sense)?;
    Ok(())
}

// Declares the names of a field, whose components begin at `comp`.
fn add_names(
    alloc: Global,
    names: &mut IndexMap<Vec<u8>, Sense>,
    comp: u16,
    name: &[u8],
    prefix: Option<u8>,
) -> Result<(), NameFault>
    ensures ok { OnOk result ((c : ℕ) → comp ≡ short c → AddsField (names_in names.old.entries) (names_in names.new.entries) c name.now prefix) }
    ensures err { IfErr result (λ f. f ≡ NoMemory) }
{
    let whole = Vec::from_slice(alloc, name)?;
    let Some(prefix) = prefix else {
        add(names, whole, Sense::Plain(comp))?;
        return Ok(());
    };
    let host = comp.saturating_add(1);
    let net_name = joined(alloc, name, b".net")?;
    let host_name = joined(alloc, name, b".host")?;
    let split = Sense::Split {
        net: comp,
        host,
        prefix,
    };
    add(names, whole, split)?;
    add(names, net_name, Sense::Plain(comp))?;
    add(names, host_name, Sense::Plain(host))?;
    Ok(())
}

impl<'a> Scope<'a> {
    /// The two plain fields that are declared before a text.
    pub(crate) fn ports(alloc: Global, text: &'a [u8]) -> Result<Scope<'a>, NameFault>
        ensures ok { IfOk result (λ s. HasDeclared text.now (Ok ports) s []) }
        ensures err { IfErr result (λ f. f ≡ NoMemory) }
    {
        let mut scope = Scope {
            alloc,
            text,
            names: IndexMap::new(alloc),
            lets: Vec::new(alloc),
            fields: Vec::new(alloc),
            comps: 0,
            arrays: Vec::new(alloc),
        };
        scope.add_field(b"inport", None)?;
        scope.add_field(b"outport", None)?;
        Ok(scope)
    }

    // Declares a field whose names are new.
    fn add_field(&mut self, name: &[u8], prefix: Option<u8>) -> Result<(), NameFault>
        ensures ok { OnOk result (FieldDeclared self.old self.new name.now prefix) }
        ensures err { IfErr result (λ f. f ≡ NoMemory) }
    {
        add_names(self.alloc, &mut self.names, self.comps, name, prefix)?;
        let name = Name::new(Vec::from_slice(self.alloc, name)?);
        let field = Field { name, prefix };
        self.comps = self.comps.saturating_add(field.width());
        self.fields.push(field)?;
        Ok(())
    }

    // Whether a name is declared.
    fn is_known(&self, name: &[u8]) -> bool
        ensures { result ≡ is_known (names_in self.now.names.entries) name.now }
    {
        self.names.contains_key(name)
    }

    // Whether a name that a field would declare is declared.
    fn is_field_known(&self, name: &[u8], is_split: bool) -> Result<bool, NameFault>
        ensures ok { IfOk result (λ known. is_field_known (names_in self.now.names.entries) name.now is_split ≡ known) }
        ensures err { IfErr result (λ f. f ≡ NoMemory) }
    {
        if self.is_known(name) {
            return Ok(true);
        }
        if !is_split {
            return Ok(false);
        }
        let net = joined(self.alloc, name, b".net")?;
        let host = joined(self.alloc, name, b".host")?;
        Ok(self.is_known(&net) || self.is_known(&host))
    }

    // The length of a split field's prefix.
    fn prefix_length(&self, prefix: Option<Span>) -> Result<Option<u8>, NameFault>
        ensures { result ≡ prefix_length self.now.text.now prefix }
    {
        let Some(token) = prefix else {
            return Ok(None);
        };
        let number = self.number(token)?;
        if 1 <= number && number <= 31 {
            Ok(Some(number as u8))
        } else {
            Err(NameFault::Prefix { at: token.from })
        }
    }

    // `field name;` or `field name/prefix;`
    fn declare_field(&mut self, name: Span, prefix: Option<Span>) -> Result<(), NameFault>
        ensures { (at : ℕ) (arities : Arities) → Declares (field_tree at name prefix) self.old self.new arities arities result }
    {
        let word = Vec::from_slice(self.alloc, self.word(name))?;
        if self.is_field_known(&word, prefix.is_some())? {
            return Err(NameFault::Twice { at: name.from });
        }
        let prefix = self.prefix_length(prefix)?;
        self.add_field(&word, prefix)?;
        Ok(())
    }

    // A name that isn't declared yet.
    fn new_name(&self, name: Span) -> Result<Vec<u8>, NameFault>
        ensures new { IfOk result (λ w. is_known (names_in self.now.names.entries) (word self.now.text.now name) ≡ false) }
        ensures word { IfOk result (λ w. w.items ≡ word self.now.text.now name) }
        ensures known { IfErr result (λ f. f ≢ NoMemory → is_known (names_in self.now.names.entries) (word self.now.text.now name) ≡ true) }
        ensures twice { IfErr result (λ f. f ≢ NoMemory → f ≡ Twice name.from) }
    {
        let word = self.word(name);
        if self.is_known(word) {
            return Err(NameFault::Twice { at: name.from });
        }
        let word = Vec::from_slice(self.alloc, word)?;
        Ok(word)
    }

    // `array name;`
    fn declare_array(&mut self, tally: &mut Sizes, name: Span) -> Result<(), NameFault>
        ensures { (at : ℕ) → Declares (array_tree at name) self.old self.new tally.old.arities.items tally.new.arities.items result }
    {
        let word = self.new_name(name)?;
        let copy = Vec::from_slice(self.alloc, &word)?;
        let number = self.arrays.len();
        add(&mut self.names, word, Sense::Array(number))?;
        self.arrays.push(Name::new(copy))?;
        tally.arities.push(None)?;
        Ok(())
    }

    // `const name = value;`
    fn declare_constant(&mut self, name: Span, literal: Literal) -> Result<(), NameFault>
        ensures { (at : ℕ) (arities : Arities) → Declares (const_tree at name literal) self.old self.new arities arities result }
    {
        let word = self.new_name(name)?;
        let value = self.literal(literal)?;
        let is_address = is_address(literal);
        add(&mut self.names, word, Sense::Constant { value, is_address })?;
        Ok(())
    }

    // `let name { body }`
    fn declare_let(&mut self, tally: &mut Sizes, name: Span, body: &Policy) -> Result<(), NameFault>
        ensures { (at : ℕ) → Declares (let_tree at name (policy_tree body.now)) self.old self.new tally.old.arities.items tally.new.arities.items result }
    {
        let word = self.new_name(name)?;
        let part = self.body(tally, body)?;
        let nodes = tally.nodes.min(MOST_KEPT);
        let number = self.lets.len();
        add(&mut self.names, word, Sense::Policy(number))?;
        self.lets.push(Body { part, nodes })?;
        Ok(())
    }

    /// A policy whose nodes are counted from 0.
    pub(crate) fn body(&self, tally: &mut Sizes, tree: &Policy) -> Result<Part, NameFault>
        ensures { Reads self.now (λ e arities. read_policy e (policy_tree tree.now) arities) (record tally.old { nodes = 0 }) tally.new result }
    {
        tally.nodes = 0;
        self.policy(tally, tree)
    }

    /// A declaration.
    pub(crate) fn declare(&mut self, tally: &mut Sizes, decl: &Decl) -> Result<(), NameFault>
        ensures { Declares (decl_tree decl.now) self.old self.new tally.old.arities.items tally.new.arities.items result }
    {
        match decl {
            Decl::Field { name, prefix, .. } => self.declare_field(*name, *prefix),
            Decl::Array { name, .. } => self.declare_array(tally, *name),
            Decl::Const { name, value, .. } => self.declare_constant(*name, *value),
            Decl::Let { name, body, .. } => self.declare_let(tally, *name, body),
        }
    }
}
