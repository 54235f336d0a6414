// What has been declared, and what the names in a text stand for.

ghost use Rattle.std.specs.Prelude.{◌≡◌};
ghost use Rattle.snap_names.specs.Parts.{words_of};
ghost use Rattle.snap_names.specs.Senses.{word, sense_of};

use crate::fault::NameFault;
use indexmap::IndexMap;
use snap_core::lists::Name;
use snap_core::policy::Pol;
use snap_core::program::Field;
use snap_parse::Span;
use std::alloc::Global;

/// What a name stands for. Arrays and `let` bodies are numbered in order of declaration.
#[derive(Clone, Copy)]
pub enum Sense {
    /// A plain field or a component
    Plain(u16),
    /// A split field
    Split { net: u16, host: u16, prefix: u8 },
    /// An array
    Array(usize),
    /// A constant
    Constant { value: u64, is_address: bool },
    /// The body of a `let`
    Policy(usize),
}

/// A part of a program in the core language, with its size. Numbers from 4294967295 on are kept as 4294967295.
#[derive(Drop)]
pub struct Part {
    /// Whether the policy is a filter.
    pub is_test: bool,
    /// The weight of the policy.
    pub weight: u64,
    /// The policy, as long as its body is within the limit on nodes.
    pub policy: Option<Pol>,
}

/// The body of a `let`.
#[derive(Drop)]
pub struct Body {
    pub part: Part,
    /// The number of its core nodes.
    pub nodes: u64,
}

/// What is counted while policies are read.
#[derive(Drop)]
pub struct Sizes {
    /// The number of atoms that each array was first indexed with.
    pub arities: Vec<Option<usize>>,
    /// The core nodes of the body that is being read, kept as a part's numbers are.
    pub nodes: u64,
}

/// What has been declared so far.
#[derive(Drop)]
pub struct Scope<'a> {
    pub alloc: Global,
    pub text: &'a [u8],
    pub names: IndexMap<Vec<u8>, Sense>,
    pub lets: Vec<Body>,
    pub fields: Vec<Field>,
    /// The number of components, kept as 65535 from there on.
    pub comps: u16,
    pub arrays: Vec<Name>,
}

impl Scope<'_> {
    /// The text of a token.
    pub(crate) fn word(&self, token: Span) -> &[u8]
        ensures { result.now ≡ word (words_of self.now).text token }
    {
        let (from, to) = (token.from as usize, token.to as usize);
        if from <= to && to <= self.text.len() {
            &self.text[from..to]
        } else {
            &[]
        }
    }

    /// What a name stands for.
    pub(crate) fn sense(&self, name: Span) -> Result<Sense, NameFault>
        ensures { result ≡ sense_of (words_of self.now) name }
    {
        match self.names.get(self.word(name)) {
            Some(sense) => Ok(*sense),
            None => Err(NameFault::Unknown { at: name.from }),
        }
    }
}
