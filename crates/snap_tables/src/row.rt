//! What the words of a row say.

ghost use Rattle.std.specs.Prelude.{◌≡◌, ◌∷◌, Some, None, codes, IfOk, MatchOption};
ghost use Rattle.snap_tables.specs.Reading.{words_left};
ghost use Rattle.snap_tables.specs.Rows.{IsLastSaid, IsLeafSaid, IsNoLast, IsNoLeaf, IsNoRow, IsRowSaid, go_said, is_field_test, stop_said, test_row_said, test_taken, tested};

use crate::leaf::{outs_said, take_ranked, take_stages};
use crate::piece::Counts;
use crate::pieces::begins_with;
use crate::reader::next_word;
use crate::rows::{take_equal, take_state, take_value};
use crate::scan::is_text;
use crate::taken::{no_words, opened, take_below, take_u64};
use snap_core::NoMemory;
use snap_core::policy::Test;
use snap_rows::tables::{ArrayAt, Row};
use std::alloc::Global;

// A test.
fn take_test<'a>(
    alloc: Global,
    counts: Counts,
    rest: Option<&'a [u8]>,
) -> Result<Option<(Test, Option<&'a [u8]>)>, NoMemory>
    ensures { IfOk result (λ said. MatchOption said (test_taken counts (words_left rest.entry) ≡ None) (λ pair. test_taken counts (words_left rest.entry) ≡ Some (pair.0, words_left pair.1))) }
{
    let Some((word, behind)) = next_word(rest) else {
        return Ok(None);
    };
    if is_text(word, b"value") {
        Ok(take_value(counts.comps, behind))
    } else if is_text(word, b"equal") {
        Ok(take_equal(counts.comps, behind))
    } else if is_text(word, b"state") {
        take_state(alloc, counts.comps, counts.arrays, behind)
    } else {
        Ok(None)
    }
}

fn is_field_test(test: &Test) -> bool
    ensures { result ≡ is_field_test test.now }
{
    match test {
        Test::Value { .. } | Test::Equal { .. } => true,
        Test::State { .. } => false,
    }
}

// The row of a test.
fn tested(test: Test, yes: u64, no: u64) -> Row
    ensures { result ≡ tested test yes no }
{
    if is_field_test(&test) {
        Row::Field { test, yes, no }
    } else {
        Row::State { test, yes, no }
    }
}

// The row of a test that all words say.
fn test_row_said(
    alloc: Global,
    counts: Counts,
    rest: Option<&[u8]>,
) -> Result<Option<Row>, NoMemory>
    ensures { IfOk result (λ said. said ≡ test_row_said counts (words_left rest.entry)) }
{
    let Some((test, rest)) = take_test(alloc, counts, rest)? else {
        return Ok(None);
    };
    let Some((yes, rest)) = take_u64(rest) else {
        return Ok(None);
    };
    let Some((no, rest)) = take_u64(rest) else {
        return Ok(None);
    };
    if no_words(rest) {
        Ok(Some(tested(test, yes, no)))
    } else {
        Ok(None)
    }
}

// The row of version 1 that sends a packet to another switch.
fn go_said(version: u8, counts: Counts, rest: Option<&[u8]>) -> Option<Row>
    ensures { result ≡ go_said version counts (words_left rest.entry) }
{
    let rest = opened(b"go", rest)?;
    let (to, rest) = take_below(counts.switches, rest)?;
    if no_words(rest) && version == 1 {
        Some(Row::Go { to })
    } else {
        None
    }
}

// The row of version 2 that stops a packet.
fn stop_said(version: u8, rest: Option<&[u8]>) -> Option<Row>
    ensures { result ≡ stop_said version (words_left rest.entry) }
{
    let rest = opened(b"stop", rest)?;
    if no_words(rest) && version == 2 {
        Some(Row::Stop)
    } else {
        None
    }
}

// The leaf of version 1 that the words behind `leaf` say.
fn leaf_said(alloc: Global, counts: Counts, rest: Option<&[u8]>) -> Result<Option<Row>, NoMemory>
    ensures { IfOk result (λ said. MatchOption said (IsNoLeaf counts (words_left rest.entry)) (IsLeafSaid counts (words_left rest.entry))) }
{
    let Some((stages, left)) = take_stages(alloc, counts, rest)? else {
        return Ok(None);
    };
    match outs_said(alloc, counts, left)? {
        None => Ok(None),
        Some(outs) => Ok(Some(Row::Leaf { stages, outs })),
    }
}

// The leaf of version 2.
fn last_said(
    alloc: Global,
    counts: Counts,
    arrays: &[ArrayAt],
    rest: Option<&[u8]>,
) -> Result<Option<Row>, NoMemory>
    ensures { IfOk result (λ said. MatchOption said (IsNoLast counts arrays.now (words_left rest.entry)) (IsLastSaid counts arrays.now (words_left rest.entry))) }
{
    let Some((ups, left)) = take_ranked(alloc, counts, arrays, rest)? else {
        return Ok(None);
    };
    match outs_said(alloc, counts, left)? {
        None => Ok(None),
        Some(outs) => Ok(Some(Row::Last { ups, outs })),
    }
}

// The leaf of a version.
fn leaf_of(
    alloc: Global,
    version: u8,
    counts: Counts,
    arrays: &[ArrayAt],
    rest: Option<&[u8]>,
) -> Result<Option<Row>, NoMemory>
    ensures { IfOk result (λ said. MatchOption said (IsNoRow version counts arrays.now (codes "leaf" ∷ words_left rest.entry)) (IsRowSaid version counts arrays.now (codes "leaf" ∷ words_left rest.entry))) }
{
    if version == 1 {
        leaf_said(alloc, counts, rest)
    } else if version == 2 {
        last_said(alloc, counts, arrays, rest)
    } else {
        Ok(None)
    }
}

/// The row that all words say.
pub(crate) fn row_of(
    alloc: Global,
    version: u8,
    counts: Counts,
    arrays: &[ArrayAt],
    rest: Option<&[u8]>,
) -> Result<Option<Row>, NoMemory>
    ensures { IfOk result (λ said. MatchOption said (IsNoRow version counts arrays.now (words_left rest.entry)) (IsRowSaid version counts arrays.now (words_left rest.entry))) }
{
    if let Some(behind) = opened(b"leaf", rest) {
        return leaf_of(alloc, version, counts, arrays, behind);
    }
    if begins_with(b"go", rest) {
        return Ok(go_said(version, counts, rest));
    }
    if begins_with(b"stop", rest) {
        return Ok(stop_said(version, rest));
    }
    test_row_said(alloc, counts, rest)
}
