//! Parts of the lines of rows, each made once.

ghost use Rattle.std.specs.Prelude.{◌≡◌, ◌<◌, ◌++◌, IfOk, OnOk, length, map};
ghost use Rattle.std.specs.List.{All, range_with_len};
ghost use Rattle.snap_rows.specs.Bodies.{IsPlaced};
ghost use Rattle.snap_tables.specs.RowParts.{ending_of, ending_text, front_text, placed_line};

use crate::texts::Texts;
use crate::words::{put_number, put_row};
use snap_core::NoMemory;
use snap_rows::lists::Placed;
use snap_rows::tables::Row;
use std::alloc::Global;

/// The fronts of lines by their switch, up to their number, and by the place of a body what stands behind that in rows of
/// one number. Most bodies stand at one number.
#[derive(Drop)]
pub(crate) struct RowParts {
    pub fronts: Texts,
    pub numbers: Vec<u64>,
    pub endings: Texts,
}

// Puts a line up to its number in place of what the words held.
fn front(words: &mut Vec<u8>, at: usize) -> Result<(), NoMemory>
    ensures { OnOk result (words.new.items ≡ front_text at) }
{
    words.clear();
    words.extend_from_slice(b"row")?;
    put_number(words, at as u64)
}

fn fronts(alloc: Global, words: &mut Vec<u8>, switches: usize) -> Result<Texts, NoMemory>
    ensures { IfOk result (λ r. r ≡ map front_text (range_with_len 0 switches)) }
{
    let mut fronts = Texts::with_capacity(alloc, switches)?;
    for at in 0..switches {
        front(words, at)?;
        fronts.push(words.as_slice())?;
    }
    Ok(fronts)
}

// Puts the words of a number and a row, and the end of their line.
fn put_words(out: &mut Vec<u8>, number: u64, row: &Row) -> Result<(), NoMemory>
    ensures { OnOk result (out.new.items ≡ out.old.items ++ ending_text number row.now) }
{
    put_number(out, number)?;
    put_row(out, row)?;
    out.push(b'\n')?;
    Ok(())
}

// The number of a row with each of so many bodies, and 0 where there is none.
fn numbers(alloc: Global, count: usize, rows: &[Placed]) -> Result<Vec<u64>, NoMemory>
    requires { All (λ (p : Placed). p.body < count) rows.now }
    ensures { IfOk result (λ r. length r.items ≡ count) }
{
    let mut numbers = vec![in alloc; 0; count]?;
    for row in rows {
        numbers[row.body as usize] = row.number;
    }
    Ok(numbers)
}

// What stands behind the switch in a row of this number with the body at a place, in place of what the words held.
fn ending(
    words: &mut Vec<u8>,
    numbers: &[u64],
    bodies: &[Row],
    place: usize,
) -> Result<(), NoMemory>
    requires long { length numbers.now ≡ length bodies.now }
    requires place { place < length bodies.now }
    ensures { OnOk result (words.new.items ≡ ending_of numbers.now bodies.now place) }
{
    words.clear();
    put_words(words, numbers[place], &bodies[place])
}

fn endings(
    alloc: Global,
    words: &mut Vec<u8>,
    numbers: &[u64],
    bodies: &[Row],
) -> Result<Texts, NoMemory>
    requires { length numbers.now ≡ length bodies.now }
    ensures { IfOk result (λ r. r ≡ map (ending_of numbers.now bodies.now) (range_with_len 0 (length bodies.now))) }
{
    let mut endings = Texts::with_capacity(alloc, bodies.len())?;
    for place in 0..bodies.len() {
        ending(words, numbers, bodies, place)?;
        endings.push(words.as_slice())?;
    }
    Ok(endings)
}

impl RowParts {
    /// The parts of the lines of these rows at so many switches.
    pub(crate) fn of(
        alloc: Global,
        switches: usize,
        bodies: &[Row],
        rows: &[Placed],
    ) -> Result<RowParts, NoMemory>
        requires { All (IsPlaced bodies.now) rows.now }
        ensures fronts { IfOk result (λ r. r.fronts ≡ map front_text (range_with_len 0 switches)) }
        ensures long { IfOk result (λ r. length r.numbers.items ≡ length bodies.now) }
        ensures endings { IfOk result (λ r. r.endings ≡ map (ending_of r.numbers.items bodies.now) (range_with_len 0 (length bodies.now))) }
    {
        let mut words = Vec::new(alloc);
        let fronts = fronts(alloc, &mut words, switches)?;
        let numbers = numbers(alloc, bodies.len(), rows)?;
        let endings = endings(alloc, &mut words, &numbers, bodies)?;
        Ok(RowParts {
            fronts,
            numbers,
            endings,
        })
    }

    /// Puts the line of a row.
    pub(crate) fn put_line(
        &self,
        out: &mut Vec<u8>,
        bodies: &[Row],
        row: &Placed,
    ) -> Result<(), NoMemory>
        requires long { length self.now.numbers.items ≡ length bodies.now }
        requires placed { IsPlaced bodies.now row.now }
        ensures { OnOk result (out.new.items ≡ out.old.items ++ placed_line self.now bodies.now row.now) }
    {
        self.fronts.put(out, row.at as usize)?;
        let place = row.body as usize;
        if self.numbers[place] == row.number {
            self.endings.put(out, place)
        } else {
            put_words(out, row.number, &bodies[place])
        }
    }
}
