//! How long the common prefix of each two of some lines is.
//!
//! What one line has in common with two others tells what these have: where the two lengths differ, they part at the shorter one,
//! and where they are the same, they go together at least so far. So items are compared only beyond what is known: with n lines
//! this costs the lines' items once, and n * n numbers.

ghost use Rattle.std.specs.Prelude.{◌≡◌, ℕ, ◌<◌, ◌≤◌, [], ◌∷◌, ◌++◌, length, map, take, Some, IfOk, OnOk, OnErr, slice_get, slice_index_or};
ghost use Rattle.vic_view.specs.Together.{IsNested, IsSymmetric, AreWithOne, IsRowBy, row_of, rows_of};

use std::alloc::Global;
use std::marker::Model;
use vic_dict::NoMemory;

/// A list of items, which two lines may have in common at their front.
pub(crate) trait Line {
    /// How many.
    ghost in_common: { Self → Self → ℕ };

    /// How many, where so many are known to be. It takes no memory, and costs the others.
    fn common_beyond(&self, other: &Self, known: usize) -> usize
        requires { known ≤ in_common self.now other.now }
        ensures { result ≡ in_common self.now other.now };
}

/// Lengths, one for each line.
#[derive(Debug, Drop)]
pub(crate) struct Lengths {
    items: Vec<usize>,
}

impl Model for Lengths {
    ghost use Rattle.std.specs.Prelude.{ℕ, List};

    ghost Value = { List ℕ };

    ghost view = { λ a. a.items.items };
}

impl Lengths {
    pub(crate) fn new(alloc: Global) -> Lengths
        ensures { result ≡ [] }
    {
        Lengths {
            items: Vec::new(alloc),
        }
    }

    pub(crate) fn as_slice(&self) -> &[usize]
        ensures { result.now ≡ self.now }
    {
        self.items.as_slice()
    }

    /// That with the line of this number, counted from 0; 0 where there is none.
    fn at(&self, number: usize) -> usize
        ensures { result ≡ slice_index_or self.now number 0 }
    {
        if number < self.items.len() {
            self.items[number]
        } else {
            0
        }
    }

    pub(crate) fn push(&mut self, length: usize) -> Result<(), NoMemory>
        ensures ok { OnOk result (self.new ≡ self.old ++ length ∷ []) }
        ensures err { OnErr result (self.new ≡ self.old) }
    {
        self.items.push(length)?;
        Ok(())
    }
}

/// The lengths of each line with each.
#[derive(Debug, Drop)]
pub(crate) struct Rows {
    items: Vec<Lengths>,
}

impl Model for Rows {
    ghost use Rattle.std.specs.Prelude.{ℕ, List};

    ghost Value = { List (List ℕ) };

    ghost view = { λ a. a.items.items };
}

impl Rows {
    fn new(alloc: Global) -> Rows
        ensures { result ≡ [] }
    {
        Rows {
            items: Vec::new(alloc),
        }
    }

    pub(crate) fn as_slice(&self) -> &[Lengths]
        ensures { result.now ≡ self.now }
    {
        self.items.as_slice()
    }

    fn push(&mut self, row: Lengths) -> Result<(), NoMemory>
        ensures ok { OnOk result (self.new ≡ self.old ++ row ∷ []) }
        ensures err { OnErr result (self.new ≡ self.old) }
    {
        self.items.push(row)?;
        Ok(())
    }
}

/// The length of two lines, of which those with a third one are known.
fn common_by<L: Line>(a: &L, b: &L, with_a: usize, with_b: usize) -> usize
    requires nested { IsNested L.in_common }
    requires symmetric { IsSymmetric L.in_common }
    requires known { AreWithOne L.in_common a.now b.now with_a with_b }
    ensures { result ≡ L.in_common a.now b.now }
{
    if with_a < with_b {
        with_a
    } else if with_b < with_a {
        with_b
    } else {
        a.common_beyond(b, with_a)
    }
}

/// The lengths of a line with each, where nothing is known of them.
pub(crate) fn row_afresh<L: Line>(alloc: Global, line: &L, lines: &[L]) -> Result<Lengths, NoMemory>
    ensures { IfOk result (λ row. row ≡ row_of L.in_common lines.now line.now) }
{
    let mut row = Lengths::new(alloc);
    for other in lines {
        row.push(line.common_beyond(other, 0))?;
    }
    Ok(row)
}

/// The lengths of a line with each, where those of some line are known.
fn row_by<L: Line>(
    alloc: Global,
    line: &L,
    lines: &[L],
    known: &[usize],
    with_line: usize,
) -> Result<Lengths, NoMemory>
    requires nested { IsNested L.in_common }
    requires symmetric { IsSymmetric L.in_common }
    requires known { IsRowBy L.in_common lines.now line.now known.now with_line }
    ensures { IfOk result (λ row. row ≡ row_of L.in_common lines.now line.now) }
{
    let mut row = Lengths::new(alloc);
    for (i, other) in lines.iter().enumerate() {
        row.push(common_by(line, other, with_line, known[i]))?;
    }
    Ok(row)
}

/// The row that has most in common with the line of this number.
fn nearest(rows: &[Lengths], number: usize) -> usize
    requires some { 0 < length rows.now }
    ensures { result < length rows.now }
{
    let mut best = 0;
    for (i, row) in rows.iter().enumerate() {
        if rows[best].at(number) < row.at(number) {
            best = i;
        }
    }
    best
}

/// The lengths of the line of this number with each, where the rows of those before it are known.
fn next_row<L: Line>(
    alloc: Global,
    rows: &[Lengths],
    number: usize,
    line: &L,
    lines: &[L],
) -> Result<Lengths, NoMemory>
    requires nested { IsNested L.in_common }
    requires symmetric { IsSymmetric L.in_common }
    requires rows { rows.now ≡ map (row_of L.in_common lines.now) (take number lines.now) }
    requires line { slice_get lines.now number ≡ Some line.now }
    ensures { IfOk result (λ row. row ≡ row_of L.in_common lines.now line.now) }
{
    if rows.is_empty() {
        return row_afresh(alloc, line, lines);
    }
    let known = &rows[nearest(rows, number)];
    row_by(alloc, line, lines, known.as_slice(), known.at(number))
}

/// The lengths of each line with each. Each line is compared from where it parts from the nearest of those before it.
pub(crate) fn together<L: Line>(alloc: Global, lines: &[L]) -> Result<Rows, NoMemory>
    requires nested { IsNested L.in_common }
    requires symmetric { IsSymmetric L.in_common }
    ensures { IfOk result (λ rows. rows ≡ rows_of L.in_common lines.now) }
{
    let mut rows = Rows::new(alloc);
    for (i, line) in lines.iter().enumerate() {
        let row = next_row(alloc, rows.as_slice(), i, line, lines)?;
        rows.push(row)?;
    }
    Ok(rows)
}
