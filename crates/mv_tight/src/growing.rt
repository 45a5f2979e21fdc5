//! Lines grown within a flexibility: each literal gets the values of its net that may be put in.
ghost use Rattle.std.specs.Prelude.{◌≡◌, ◌++◌, ℕ, true, Some, All, IfErr, IfOk, IsTrue, OnOk};
ghost use Rattle.mv_base.specs.Set.{full};
ghost use Rattle.mv_cover.specs.Covers.{cube_reads};
ghost use Rattle.mv_cover.specs.Cubes.{IsCube};
ghost use Rattle.mv_cover.specs.declared.line.Line.{Line};
ghost use Rattle.mv_flex.specs.Flex.{IsLaterStop, IsOverFanins, LineInFlex};
ghost use Rattle.mv_flex.specs.Flexibilities.{IsFlex};
ghost use Rattle.mv_net.specs.Formed.{AllLiterals};
ghost use Rattle.mv_net.specs.Index.{is_held};
ghost use Rattle.mv_net.specs.Nets.{slot, table_in, reads_in};
ghost use Rattle.mv_net.specs.declared.window.Window.{Window};
ghost use Rattle.mv_tight.specs.Growing.{AreGrown, IsGrownAt, IsGrownWhole, grown_on, put_in};

use mv_base::{Items, Memory, NetId, ValueSet};
use mv_cover::{Cover, Cube, Line, Lit};
use mv_flex::{FlexStop, Flexibility};
use mv_net::Network;
use smallvec::SmallVec;
use std::alloc::Global;

/// The lines, each grown.
pub fn grown_lines(
    alloc: Global,
    net: &Network,
    flexibility: &Flexibility,
    old: &Cover,
) -> Result<Items<Line>, FlexStop>
    requires literals { All (λ (l : Line). AllLiterals net.now.nets l.cube) old.now.lines }
    ensures ok { IfOk result (λ grown. (w : Window) (n budget : ℕ)
        → IsFlex net.now w n budget flexibility.now → table_in (slot net.now.nets n) ≡ Some old.now
        → AreGrown net.now.nets w n old.now.lines grown) }
    ensures err { IfErr result (λ stop. (w : Window) (n budget : ℕ)
        → IsFlex net.now w n budget flexibility.now → IsLaterStop net.now w budget stop) }
{
    let mut grown = Items::with_room(alloc, old.lines.len())?;
    for line in old.lines.as_slice() {
        grown.push(grown_line(alloc, net, flexibility, line)?)?;
    }
    Ok(grown)
}

/// The line with each of its literals grown, by ascending net.
fn grown_line(
    alloc: Global,
    net: &Network,
    flexibility: &Flexibility,
    line: &Line,
) -> Result<Line, FlexStop>
    requires literals { AllLiterals net.now.nets line.now.cube }
    ensures ok { IfOk result (λ grown. (w : Window) (n budget : ℕ)
        → IsFlex net.now w n budget flexibility.now
        → IsOverFanins net.now.nets n (cube_reads line.now.cube)
        → LineInFlex net.now.nets w n line.now → IsGrownWhole net.now.nets w n line.now grown) }
    ensures err { IfErr result (λ stop. (w : Window) (n budget : ℕ)
        → IsFlex net.now w n budget flexibility.now → IsLaterStop net.now w budget stop) }
{
    let mut grown = line.copy()?;
    for literal in line.cube.lits() {
        grown = grown_at(alloc, net, flexibility, &grown, literal.net())?;
    }
    grown.cube.lits();
    Ok(grown)
}

/// The line with the values of the net that may be put into its literal on it. A literal with all of them goes.
fn grown_at(
    alloc: Global,
    net: &Network,
    flexibility: &Flexibility,
    line: &Line,
    m: NetId,
) -> Result<Line, FlexStop>
    requires held { IsTrue (is_held net.now.nets m.0) }
    ensures ok { IfOk result (λ grown. (w : Window) (n budget : ℕ)
        → IsFlex net.now w n budget flexibility.now → reads_in net.now.nets n m.0 ≡ true
        → IsOverFanins net.now.nets n (cube_reads line.now.cube)
        → IsGrownAt net.now.nets w n m.0 line.now grown) }
    ensures err { IfErr result (λ stop. (w : Window) (n budget : ℕ)
        → IsFlex net.now w n budget flexibility.now → IsLaterStop net.now w budget stop) }
{
    net.well_formed();
    let blocked = match flexibility.blocked(line, m) {
        Ok(blocked) => blocked,
        Err(stop) => return Err(stop),
    };
    let all = ValueSet::full(net.values(m));
    let cube = put_in(alloc, line.cube.lits(), m, all.minus(blocked), all)?;
    let out = line.out.copy()?;
    Ok(Line { cube, out })
}

/// The cube with these values put into its literal on the net. A literal that has all values then goes.
fn put_in(
    alloc: Global,
    lits: &[Lit],
    m: NetId,
    values: ValueSet,
    all: ValueSet,
) -> Result<Cube, Memory>
    requires { IsCube lits.now }
    ensures { IfOk result (λ cube. cube ≡ put_in m.0 values all lits.now) }
{
    let mut grown = SmallVec::new(alloc);
    for literal in lits {
        put_literal(alloc, literal, m, values, all, &mut grown)?;
    }
    Ok(Cube::of(grown))
}

/// Puts the literal behind the others: if it is on the net, with these values more, and not at all if it has all values then.
fn put_literal(
    alloc: Global,
    literal: &Lit,
    m: NetId,
    values: ValueSet,
    all: ValueSet,
    grown: &mut SmallVec<Lit, 2>,
) -> Result<(), Memory>
    ensures { OnOk result (grown.new.items
        ≡ grown.old.items ++ grown_on m.0 values all literal.now) }
{
    if literal.net() != m {
        grown.push(literal.copy()?)?;
        return Ok(());
    }
    let set = literal.set().join(values);
    if set != all {
        grown.push(Lit::new(alloc, literal.net(), set)?)?;
    }
    Ok(())
}
