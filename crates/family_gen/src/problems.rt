ghost use Rattle.std.specs.Prelude.{◌≡◌, ◌+◌, ◌^◌, ◌<◌, ◌++◌, map, decimal, IfOk};
ghost use Rattle.std.specs.List.{range_with_len};
ghost use Rattle.family_gen.specs.Problems.{lamp, cell, lit, at, next, lights_problem, corridor_problem, problem_of};

use crate::domains::{AT, LIT, NEXT};
use crate::kinds::Family;
use crate::pieces::{atom, list, problem};
use flag_rules::{List, OutOfMemory, Text};
use itoa::Buffer;
use pddl_parser::{AtomText, ProblemText};
use std::alloc::Global;

/// The instance of a family that has a size.
pub(crate) fn problem_of(
    alloc: Global,
    which: Family,
    size: u16,
) -> Result<ProblemText, OutOfMemory>
    requires { 0 < size }
    ensures { IfOk result (λ problem. problem ≡ problem_of which size) }
{
    match which {
        Family::Lights => lights(alloc, size),
        Family::Corridor => corridor(alloc, size),
    }
}

/// So many lamps, of which none is lit; all are to be lit.
fn lights(alloc: Global, size: u16) -> Result<ProblemText, OutOfMemory>
    ensures { IfOk result (λ problem. problem ≡ lights_problem size) }
{
    let lamps = lamps(alloc, size)?;
    let goal = all_lit(alloc, size)?;
    problem(alloc, Family::Lights, lamps, List::new(alloc), goal)
}

/// The lamps below a number.
fn lamps(alloc: Global, size: u16) -> Result<List<Text>, OutOfMemory>
    ensures { IfOk result (λ lamps. lamps ≡ map lamp (range_with_len 0 size)) }
{
    let mut lamps = List::new(alloc);
    for number in 0..size {
        lamps.push(lamp(alloc, number)?)?;
    }
    Ok(lamps)
}

/// That the lamps below a number are lit.
fn all_lit(alloc: Global, size: u16) -> Result<List<AtomText>, OutOfMemory>
    ensures { IfOk result (λ atoms. atoms ≡ map lit (range_with_len 0 size)) }
{
    let mut atoms = List::new(alloc);
    for number in 0..size {
        atoms.push(lit(alloc, number)?)?;
    }
    Ok(atoms)
}

/// That a lamp is lit.
fn lit(alloc: Global, number: u16) -> Result<AtomText, OutOfMemory>
    ensures { IfOk result (λ made. made ≡ lit number) }
{
    let lamp = lamp(alloc, number)?;
    atom(alloc, LIT, &[lamp.as_slice()])
}

/// So many cells in a row; somebody is at the first one, and is to be at the last.
fn corridor(alloc: Global, size: u16) -> Result<ProblemText, OutOfMemory>
    requires { 0 < size }
    ensures { IfOk result (λ problem. problem ≡ corridor_problem size) }
{
    let mut init = list(alloc, [at(alloc, 0)?])?;
    for number in 0..size - 1 {
        init.push(next(alloc, number)?)?;
    }
    let goal = list(alloc, [at(alloc, size - 1)?])?;
    problem(alloc, Family::Corridor, cells(alloc, size)?, init, goal)
}

/// The cells below a number.
fn cells(alloc: Global, size: u16) -> Result<List<Text>, OutOfMemory>
    ensures { IfOk result (λ cells. cells ≡ map cell (range_with_len 0 size)) }
{
    let mut cells = List::new(alloc);
    for number in 0..size {
        cells.push(cell(alloc, number)?)?;
    }
    Ok(cells)
}

/// That somebody is at a cell.
fn at(alloc: Global, number: u16) -> Result<AtomText, OutOfMemory>
    ensures { IfOk result (λ made. made ≡ at number) }
{
    let cell = cell(alloc, number)?;
    atom(alloc, AT, &[cell.as_slice()])
}

/// That the cell after one is next to it.
fn next(alloc: Global, number: u16) -> Result<AtomText, OutOfMemory>
    requires { number + 1 < 2 ^ 16 }
    ensures { IfOk result (λ made. made ≡ next number) }
{
    let from = cell(alloc, number)?;
    let to = cell(alloc, number + 1)?;
    atom(alloc, NEXT, &[from.as_slice(), to.as_slice()])
}

/// The lamp of a number.
fn lamp(alloc: Global, number: u16) -> Result<Text, OutOfMemory>
    ensures { IfOk result (λ name. name ≡ lamp number) }
{
    numbered(alloc, b"o", number)
}

/// The cell of a number.
fn cell(alloc: Global, number: u16) -> Result<Text, OutOfMemory>
    ensures { IfOk result (λ name. name ≡ cell number) }
{
    numbered(alloc, b"c", number)
}

/// A letter and a number.
fn numbered(alloc: Global, letter: &[u8], number: u16) -> Result<Text, OutOfMemory>
    ensures { IfOk result (λ name. name ≡ letter.now ++ decimal number) }
{
    let mut name = Text::of(alloc, letter)?;
    name.append(Buffer::new().format(number).as_bytes())?;
    Ok(name)
}
