//! Texts one behind another in one list, so that none takes memory of its own.

ghost use Rattle.std.specs.Prelude.{◌≡◌, ◌∷◌, ◌++◌, [], IfOk, OnOk, slice_index_or};

use snap_core::NoMemory;
use std::alloc::Global;
use std::marker::Model;

// How many bytes a list of texts has room for at first.
const ROOM: usize = 256;

/// Where a text stands.
#[derive(Clone, Copy)]
struct Span {
    start: usize,
    end: usize,
}

/// Texts, seen as the list of them.
#[derive(Drop)]
pub(crate) struct Texts {
    bytes: Vec<u8>,
    spans: Vec<Span>,
}

impl Model for Texts {
    ghost use Rattle.std.specs.Prelude.{List, ℕ, map};
    ghost use Rattle.std.specs.List.{All};
    ghost use Rattle.snap_tables.specs.Texts.{IsWithin, spanned};

    ghost Value = { List (List ℕ) };

    ghost view = { λ a. map (spanned a.bytes.items) a.spans.items };

    ghost invariant = { λ a. All (IsWithin a.bytes.items) a.spans.items };
}

impl Texts {
    /// No texts, with room for so many short ones.
    pub(crate) fn with_capacity(alloc: Global, count: usize) -> Result<Texts, NoMemory>
        ensures { IfOk result (λ texts. texts ≡ []) }
    {
        let bytes = Vec::with_capacity(alloc, ROOM)?;
        let spans = Vec::with_capacity(alloc, count)?;
        Ok(Texts { bytes, spans })
    }

    /// Adds a text.
    pub(crate) fn push(&mut self, text: &[u8]) -> Result<(), NoMemory>
        ensures { OnOk result (self.new ≡ self.old ++ text.now ∷ []) }
    {
        let start = self.bytes.len();
        self.bytes.extend_from_slice(text)?;
        let end = self.bytes.len();
        self.spans.push(Span { start, end })?;
        Ok(())
    }

    /// Puts the text at a position behind a list, or nothing where there is none.
    pub(crate) fn put(&self, out: &mut Vec<u8>, at: usize) -> Result<(), NoMemory>
        ensures { OnOk result (out.new.items ≡ out.old.items ++ slice_index_or self.now at []) }
    {
        match self.spans.get(at) {
            Some(span) => {
                out.extend_from_slice(&self.bytes[span.start..span.end])?;
                Ok(())
            }
            None => Ok(()),
        }
    }
}
