// The tree that the grammar derives. Spans are those of single tokens. An `at` is the byte where the first token of a
// part begins.

ghost use Rattle.std.specs.Prelude.{◌≡◌};

/// Where a token's text begins, and where it ends.
#[derive(Clone, Copy)]
pub struct Span {
    pub from: u32,
    pub to: u32,
}

/// A number, an address or a truth value.
#[derive(Clone, Copy)]
pub enum Literal {
    Number(Span),
    Address(Span),
    True(Span),
    False(Span),
}

/// What a field or an array is compared with or set to, and what stands in a place: a literal, `address/length` or a
/// name.
#[derive(Clone, Copy)]
pub enum Value {
    Literal(Literal),
    Prefix { address: Span, length: Span },
    Name(Span),
}

/// A program: its declarations and its policy.
#[derive(Drop)]
pub struct Source {
    pub decls: Vec<Decl>,
    pub policy: Policy,
}

/// A declaration.
#[derive(Drop)]
pub enum Decl {
    /// `field name;` or `field name/prefix;`
    Field {
        at: u32,
        name: Span,
        prefix: Option<Span>,
    },
    /// `array name;`
    Array {
        at: u32,
        name: Span,
    },
    /// `const name = value;`
    Const {
        at: u32,
        name: Span,
        value: Literal,
    },
    /// `let name { body }`
    Let {
        at: u32,
        name: Span,
        body: Policy,
    },
}

/// Sequences joined by `+`.
#[cycle(tree)]
#[derive(Drop)]
pub struct Policy {
    pub at: u32,
    pub parts: Vec<Sequence>,
}

/// Choices joined by `;`.
#[cycle(tree)]
#[derive(Drop)]
pub struct Sequence {
    pub at: u32,
    pub parts: Vec<Choice>,
}

/// `if test then yes else no`, or what has no choice.
#[cycle(tree)]
#[derive(Drop)]
pub enum Choice {
    If {
        at: u32,
        test: Either,
        yes: Box<Policy>,
        no: Box<Choice>,
    },
    Plain(Either),
}

/// Parts joined by `|`.
#[cycle(tree)]
#[derive(Drop)]
pub struct Either {
    pub at: u32,
    pub parts: Vec<Both>,
}

/// Parts joined by `&`.
#[cycle(tree)]
#[derive(Drop)]
pub struct Both {
    pub at: u32,
    pub parts: Vec<Single>,
}

/// What has no operator between its parts.
#[cycle(tree)]
#[derive(Drop)]
pub enum Single {
    /// `!part`
    Not {
        at: u32,
        part: Box<Single>,
    },
    /// `id`
    Id {
        at: u32,
    },
    /// `drop`
    Drop {
        at: u32,
    },
    /// `(body)`
    Group {
        at: u32,
        body: Box<Policy>,
    },
    /// `atomic(body)`
    Atomic {
        at: u32,
        body: Box<Policy>,
    },
    /// `name`
    Name(Span),
    /// `name = value`
    Test {
        name: Span,
        value: Value,
    },
    /// `name <- value`
    Set {
        name: Span,
        value: Value,
    },
    /// `name[place]`, with one place or more, as in the forms below
    Bare {
        name: Span,
        places: Vec<Value>,
    },
    /// `name[place] = value`
    ArrayTest {
        name: Span,
        places: Vec<Value>,
        value: Value,
    },
    /// `name[place] <- value`
    ArraySet {
        name: Span,
        places: Vec<Value>,
        value: Value,
    },
    /// `name[place]++`
    Up {
        name: Span,
        places: Vec<Value>,
    },
    /// `name[place]--`
    Down {
        name: Span,
        places: Vec<Value>,
    },
    /// `name[place] += value`
    ArrayAdd {
        name: Span,
        places: Vec<Value>,
        value: Value,
    },
    /// `name[place] -= value`
    ArraySub {
        name: Span,
        places: Vec<Value>,
        value: Value,
    },
}

impl Single {
    ghost use Rattle.snap_parse.specs.Tree.{single_at, single_tree};

    /// Where its first token begins.
    #[tactic(auto, unfolding(crate::specs::Tree::single_tree))]
    pub fn at(&self) -> u32
        ensures { result ≡ single_at (single_tree self.now) }
    {
        match self {
            Single::Not { at, .. }
            | Single::Id { at }
            | Single::Drop { at }
            | Single::Group { at, .. }
            | Single::Atomic { at, .. } => *at,
            Single::Name(name)
            | Single::Test { name, .. }
            | Single::Set { name, .. }
            | Single::Bare { name, .. }
            | Single::ArrayTest { name, .. }
            | Single::ArraySet { name, .. }
            | Single::Up { name, .. }
            | Single::Down { name, .. }
            | Single::ArrayAdd { name, .. }
            | Single::ArraySub { name, .. } => name.from,
        }
    }
}
