// Literals, values, and the tests and assignments of fields.

ghost use Rattle.std.specs.Prelude.{◌≡◌};
ghost use Rattle.snap_names.specs.Parts.{words_of};
ghost use Rattle.snap_names.specs.Senses.{number_at, address_at, literal, is_address, literal_from, constant_of, constant, atom_of, field_atom, array_atom, address_atoms, address_literal, address_of_sense, split_of_sense, split_atoms, split_address, split_net};
ghost use Rattle.snap_names.specs.Core.{net, host};

use crate::fault::NameFault;
use crate::scope::{Scope, Sense};
use snap_core::figures;
use snap_core::policy::Atom;
use snap_parse::{Literal, Span, Value};

/// Whether a literal is an address.
pub(crate) fn is_address(literal: Literal) -> bool
    ensures { result ≡ is_address literal }
{
    matches!(literal, Literal::Address(_))
}

/// Where a literal begins.
pub(crate) fn literal_from(literal: Literal) -> u32
    ensures { result ≡ literal_from literal }
{
    match literal {
        Literal::Number(token)
        | Literal::Address(token)
        | Literal::True(token)
        | Literal::False(token) => token.from,
    }
}

/// The net of an address: its first bits.
pub(crate) fn net(prefix: u8, address: u64) -> u64
    ensures { result ≡ net prefix address }
{
    address / (1 << 32u8.saturating_sub(prefix))
}

/// The host of an address: the bits behind the net.
pub(crate) fn host(prefix: u8, address: u64) -> u64
    ensures { result ≡ host prefix address }
{
    address % (1 << 32u8.saturating_sub(prefix))
}

// The number of a constant whose name stands at `at`.
fn constant_of(at: u32, sense: Sense) -> Result<u64, NameFault>
    ensures { result ≡ constant_of at sense }
{
    match sense {
        Sense::Constant { value, .. } => Ok(value),
        _ => Err(NameFault::Kind { at }),
    }
}

// The atom of a constant or a plain field.
fn atom_of(at: u32, sense: Sense) -> Result<Atom, NameFault>
    ensures { result ≡ atom_of at sense }
{
    match sense {
        Sense::Constant { value, .. } => Ok(Atom::Num(value)),
        Sense::Plain(comp) => Ok(Atom::Comp(comp)),
        _ => Err(NameFault::Kind { at }),
    }
}

// The number of a constant that is an address.
fn address_of_sense(at: u32, sense: Sense) -> Result<u64, NameFault>
    ensures { result ≡ address_of_sense at sense }
{
    match sense {
        Sense::Constant {
            value,
            is_address: true,
        } => Ok(value),
        _ => Err(NameFault::Kind { at }),
    }
}

// The numbers of an address' net and host.
fn address_atoms(prefix: u8, address: u64) -> (Atom, Atom)
    ensures { result ≡ address_atoms prefix address }
{
    (
        Atom::Num(net(prefix, address)),
        Atom::Num(host(prefix, address)),
    )
}

// The atoms of a constant that is an address, or of a split field of the same prefix length.
fn split_of_sense(prefix: u8, at: u32, sense: Sense) -> Result<(Atom, Atom), NameFault>
    ensures { result ≡ split_of_sense prefix at sense }
{
    match sense {
        Sense::Constant {
            value,
            is_address: true,
        } => Ok(address_atoms(prefix, value)),
        Sense::Split {
            net,
            host,
            prefix: other,
        } => {
            if other == prefix {
                Ok((Atom::Comp(net), Atom::Comp(host)))
            } else {
                Err(NameFault::Kind { at })
            }
        }
        _ => Err(NameFault::Kind { at }),
    }
}

impl Scope<'_> {
    /// The number that a token spells.
    pub(crate) fn number(&self, token: Span) -> Result<u64, NameFault>
        ensures { result ≡ number_at (words_of self.now).text token }
    {
        match figures::number(self.word(token)) {
            Some(number) => Ok(number),
            None => Err(NameFault::Wide { at: token.from }),
        }
    }

    /// The number of the address that a token spells.
    pub(crate) fn address(&self, token: Span) -> Result<u64, NameFault>
        ensures { result ≡ address_at (words_of self.now).text token }
    {
        match figures::address(self.word(token)) {
            Some(number) => Ok(u64::from(number)),
            None => Err(NameFault::Wide { at: token.from }),
        }
    }

    /// The number of a literal.
    pub(crate) fn literal(&self, value: Literal) -> Result<u64, NameFault>
        ensures { result ≡ literal (words_of self.now).text value }
    {
        match value {
            Literal::Number(token) => self.number(token),
            Literal::Address(token) => self.address(token),
            Literal::True(_) => Ok(1),
            Literal::False(_) => Ok(0),
        }
    }

    /// A literal or a constant.
    pub(crate) fn constant(&self, value: Value) -> Result<u64, NameFault>
        ensures { result ≡ constant (words_of self.now) value }
    {
        match value {
            Value::Literal(literal) => self.literal(literal),
            Value::Prefix { address, .. } => Err(NameFault::Kind { at: address.from }),
            Value::Name(name) => constant_of(name.from, self.sense(name)?),
        }
    }

    /// What stands behind `<-` of a plain field: a literal, a constant or a plain field.
    pub(crate) fn field_atom(&self, value: Value) -> Result<Atom, NameFault>
        ensures { result ≡ field_atom (words_of self.now) value }
    {
        match value {
            Value::Literal(literal) => Ok(Atom::Num(self.literal(literal)?)),
            Value::Prefix { address, .. } => Err(NameFault::Kind { at: address.from }),
            Value::Name(name) => atom_of(name.from, self.sense(name)?),
        }
    }

    /// What stands behind `=` and `<-` of an array: the same, where a prefix is a fault of its own.
    pub(crate) fn array_atom(&self, value: Value) -> Result<Atom, NameFault>
        ensures { result ≡ array_atom (words_of self.now) value }
    {
        match value {
            Value::Literal(literal) => Ok(Atom::Num(self.literal(literal)?)),
            Value::Prefix { address, .. } => Err(NameFault::Prefix { at: address.from }),
            Value::Name(name) => atom_of(name.from, self.sense(name)?),
        }
    }

    // The number of a literal that is an address.
    fn address_literal(&self, literal: Literal) -> Result<u64, NameFault>
        ensures { result ≡ address_literal (words_of self.now) literal }
    {
        match literal {
            Literal::Address(token) => self.address(token),
            _ => Err(NameFault::Kind {
                at: literal_from(literal),
            }),
        }
    }

    /// What stands behind `<-` of a split field: an address, a constant that is one, or a split field of the same
    /// prefix length.
    pub(crate) fn split_atoms(&self, prefix: u8, value: Value) -> Result<(Atom, Atom), NameFault>
        ensures { result ≡ split_atoms (words_of self.now) prefix value }
    {
        match value {
            Value::Literal(literal) => Ok(address_atoms(prefix, self.address_literal(literal)?)),
            Value::Prefix { address, .. } => Err(NameFault::Kind { at: address.from }),
            Value::Name(name) => split_of_sense(prefix, name.from, self.sense(name)?),
        }
    }

    /// The number of an address or of a constant that is one, which a split field is compared with.
    pub(crate) fn split_address(&self, value: Value) -> Result<u64, NameFault>
        ensures { result ≡ split_address (words_of self.now) value }
    {
        match value {
            Value::Literal(literal) => self.address_literal(literal),
            Value::Prefix { address, .. } => Err(NameFault::Kind { at: address.from }),
            Value::Name(name) => address_of_sense(name.from, self.sense(name)?),
        }
    }

    /// The net of a prefix that a split field of this length is compared with.
    pub(crate) fn split_net(
        &self,
        prefix: u8,
        address: Span,
        length: Span,
    ) -> Result<u64, NameFault>
        ensures { result ≡ split_net (words_of self.now) prefix address length }
    {
        if figures::number(self.word(length)) == Some(u64::from(prefix)) {
            Ok(net(prefix, self.address(address)?))
        } else {
            Err(NameFault::Prefix { at: address.from })
        }
    }
}
