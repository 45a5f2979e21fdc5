ghost use Rattle.std.specs.Prelude.{◌≡◌, ◌↔◌, ◌<◌, ◌++◌, [], All, IsTrue, IfOk, OnOk, MatchOption, length, filter, not};
ghost use Rattle.std.specs.List.{flat_map, list_any};
ghost use Rattle.indexmap.specs.IndexSet.{insert_all};
ghost use Rattle.mv_cover.specs.Cubes.{IsCube};
ghost use Rattle.mv_cover.specs.Equal.{line_eq};
ghost use Rattle.mv_cover.specs.declared.line.Line.{Line};
ghost use Rattle.mv_divide.specs.declared.quotient.Quotient.{Quotient};
ghost use Rattle.mv_divide.specs.Tables as tables;
ghost use Rattle.mv_divide.specs.Tables.{IsDivided, IsUndivided};
ghost use Rattle.mv_divide.specs.Grouped as grouped;
ghost use Rattle.mv_divide.specs.Grouped.{AreBelow, AreLeft, AreMade};

use crate::quotient::quotients;
use crate::{Part, Quotient};
use indexmap::IndexSet;
use mv_base::{Memory, NetId, Value, ValueSet};
use mv_cover::{Cube, Line, Lit};
use mv_kernels::{cube_quotient, has_each};
use smallvec::SmallVec;
use std::alloc::Global;

/// The lines of a table, divided by the divisor for which the net n stands, or None where no quotient has a cube: the lines
/// that are no products stay in their order, and behind them come those for the quotients, in the order of the output sets
/// and of the cubes. The table has these covers, and the number of n comes behind those of its nets.
pub fn divide(
    alloc: Global,
    lines: &[Line],
    parts: &[Part],
    divisor: &[Cube],
    n: NetId,
) -> Result<Option<Vec<Line>>, Memory>
    requires parts { parts.now ≡ tables.parts_of lines.now }
    requires some { 0 < length divisor.now }
    requires below { All (λ (l : Line). AreBelow n l.cube) lines.now }
    ensures { IfOk result (λ found. MatchOption found
        (IsUndivided lines.now divisor.now)
        (λ new. IsDivided lines.now divisor.now n new.items)) }
{
    let quotients = quotients(alloc, parts, divisor)?;
    if are_empty(quotients.as_slice()) {
        return Ok(None);
    }
    Ok(Some(divided_lines(alloc, lines, divisor, n, quotients.as_slice())?))
}

/// The lines that are no products of the quotients and the divisor, and behind them those for the quotients.
fn divided_lines(
    alloc: Global,
    lines: &[Line],
    divisor: &[Cube],
    n: NetId,
    quotients: &[Quotient],
) -> Result<Vec<Line>, Memory>
    requires { All (λ (q : Quotient). All (AreBelow n) q.cubes) quotients.now }
    ensures { IfOk result (λ new. AreMade lines.now divisor.now n quotients.now new.items) }
{
    let left = left_lines(alloc, quotients)?;
    let mut new = rest(alloc, lines, divisor, &left)?;
    add_all(alloc, &mut new, quotients, n)?;
    Ok(new)
}

/// Whether none of the quotients has a cube.
fn are_empty(quotients: &[Quotient]) -> bool
    ensures { IsTrue result ↔ All (λ (q : Quotient). q.cubes ≡ []) quotients.now }
{
    quotients.iter().all(|quotient| quotient.cubes.is_empty())
}

/// The cubes of the quotients, each with its output set.
fn left_lines(alloc: Global, quotients: &[Quotient]) -> Result<IndexSet<Line>, Memory>
    ensures { IfOk result (λ left. AreLeft quotients.now left.keys) }
{
    let mut left = IndexSet::new(alloc);
    for quotient in quotients {
        put_left(&mut left, quotient)?;
    }
    Ok(left)
}

/// Puts the cubes of a quotient, with its output set, to those that are left.
fn put_left(left: &mut IndexSet<Line>, quotient: &Quotient) -> Result<(), Memory>
    ensures { OnOk result
        (left.new.keys ≡ insert_all line_eq left.old.keys (grouped.left_lines quotient.now)) }
{
    for cube in quotient.cubes.as_slice() {
        let cube = cube.copy()?;
        let out = quotient.out.copy()?;
        left.insert(Line { cube, out })?;
    }
    Ok(())
}

/// The lines that are no products of what is left and the divisor, in their order.
fn rest(
    alloc: Global,
    lines: &[Line],
    divisor: &[Cube],
    left: &IndexSet<Line>,
) -> Result<Vec<Line>, Memory>
    ensures rest { IfOk result
        (λ rest. rest.items
        ≡ filter (λ (l : Line). not (grouped.is_product left.now.keys divisor.now l)) lines.now) }
    ensures formed { OnOk result (All (λ (l : Line). IsCube l.cube) lines.now) }
{
    let mut rest = Vec::new(alloc);
    for line in lines {
        let is_product = is_product(alloc, left, divisor, line)?;
        keep(&mut rest, line, is_product)?;
    }
    Ok(rest)
}

/// Adds the line, unless it is a product.
fn keep(rest: &mut Vec<Line>, line: &Line, is_product: bool) -> Result<(), Memory>
    ensures { OnOk result (rest.new.items ≡ grouped.kept rest.old.items line.now is_product) }
{
    if is_product {
        return Ok(());
    }
    Ok(rest.push(line.copy()?)?)
}

/// Whether the line is the product of what is left and some cube of the divisor.
fn is_product(
    alloc: Global,
    left: &IndexSet<Line>,
    divisor: &[Cube],
    line: &Line,
) -> Result<bool, Memory>
    ensures found { IfOk result
        (λ found. found ≡ grouped.is_product left.now.keys divisor.now line.now) }
    ensures formed { IsCube line.now.cube }
{
    let _ = line.cube.lits();
    for d in divisor {
        if is_product_by(alloc, left, d, line)? {
            return Ok(true);
        }
    }
    Ok(false)
}

/// Whether the line has each symbol of d, and without them is among those that are left.
fn is_product_by(
    alloc: Global,
    left: &IndexSet<Line>,
    d: &Cube,
    line: &Line,
) -> Result<bool, Memory>
    ensures { IfOk result (λ found. found ≡ grouped.is_product_by left.now.keys line.now d.now) }
{
    if !has_each(d.lits(), line.cube.lits()) {
        return Ok(false);
    }
    let cube = cube_quotient(alloc, d.lits(), &line.cube)?;
    let out = line.out.copy()?;
    Ok(is_left(left, Line { cube, out }))
}

/// Whether the line is among those that are left.
fn is_left(left: &IndexSet<Line>, line: Line) -> bool
    ensures { result ≡ list_any (line_eq line) left.now.keys }
{
    left.contains(&line)
}

/// Adds the lines for the cubes of the quotients.
fn add_all(
    alloc: Global,
    new: &mut Vec<Line>,
    quotients: &[Quotient],
    n: NetId,
) -> Result<(), Memory>
    requires { All (λ (q : Quotient). All (AreBelow n) q.cubes) quotients.now }
    ensures { OnOk result
        (new.new.items ≡ new.old.items ++ flat_map (tables.lines_for n) quotients.now) }
{
    for quotient in quotients {
        add_lines(alloc, new, quotient, n)?;
    }
    Ok(())
}

/// Adds the lines for the cubes of a quotient.
fn add_lines(
    alloc: Global,
    new: &mut Vec<Line>,
    quotient: &Quotient,
    n: NetId,
) -> Result<(), Memory>
    requires { All (AreBelow n) quotient.now.cubes }
    ensures { OnOk result (new.new.items ≡ new.old.items ++ tables.lines_for n quotient.now) }
{
    for cube in quotient.cubes.as_slice() {
        let cube = with_one(alloc, n, cube)?;
        let out = quotient.out.copy()?;
        new.push(Line { cube, out })?;
    }
    Ok(())
}

/// The cube, with the literal that the net n is 1.
fn with_one(alloc: Global, n: NetId, cube: &Cube) -> Result<Cube, Memory>
    requires { AreBelow n cube.now }
    ensures { IfOk result (λ more. more ≡ tables.with_one n cube.now) }
{
    let mut lits = SmallVec::new(alloc);
    for literal in cube.lits() {
        lits.push(literal.copy()?)?;
    }
    lits.push(Lit::new(alloc, n, ValueSet::one(Value(1)))?)?;
    Ok(Cube::of(lits))
}
