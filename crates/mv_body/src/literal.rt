ghost use Rattle.std.specs.Prelude.{◌≡◌, ◌≤◌, MatchBool, MatchOption, IfOk, All, unwrap_or};
ghost use Rattle.mv_base.specs.declared.limits.TheConstants.{MAX_VALUES};
ghost use Rattle.mv_cover.specs.Lines.{IsOutput};
ghost use Rattle.mv_net.specs.Formed.{IsReadable, IsLiteral};
ghost use Rattle.mv_body.specs.Bodies.{IsKnown, AreLiterals, literal_said, literals_said, number_named};

use mv_base::{MAX_VALUES, Memory, NetId, ValueSet};
use mv_cover::Lit;
use mv_entry::BodyLit;
use mv_net::Network;
use std::alloc::Global;

/// Whether the set has some of the values of a net that has so many, and no others.
pub fn is_output(set: ValueSet, values: u16) -> bool
    requires { values ≤ MAX_VALUES }
    ensures { MatchBool result (IsOutput values set) (IsOutput values set → ⊥) }
{
    set != ValueSet::empty() && set.within(ValueSet::full(values))
}

/// The number of the net with the name, and 0 where there is none.
fn number_said(net: &Network, name: &[u8]) -> NetId
    ensures { result.0 ≡ unwrap_or (number_named net.now.nets name.now) 0 }
{
    net.well_formed();
    match net.find(name) {
        Some(number) => number,
        None => NetId(0),
    }
}

/// The literal over numbers: on the net with the name, and on the number 0 where there is none.
fn literal_said(alloc: Global, net: &Network, literal: &BodyLit) -> Result<Lit, Memory>
    ensures { IfOk result (λ said. said ≡ literal_said net.now.nets literal.now) }
{
    Lit::new(
        alloc,
        number_said(net, literal.net.bytes()),
        literal.set.get(),
    )
}

/// Whether the set of a literal on a net that can be read has some of the net's values, but not all.
fn is_literal(net: &Network, literal: &Lit) -> bool
    requires { IsReadable net.now.nets literal.now.net.0 }
    ensures { MatchBool result (IsLiteral net.now.nets literal.now)
        (IsLiteral net.now.nets literal.now → ⊥) }
{
    net.well_formed();
    let values = net.values(literal.net());
    let set = literal.set();
    is_output(set, values) && set != ValueSet::full(values)
}

/// The literals over numbers, as they stand, unless some net may not have one of them.
pub fn checked_literals(
    alloc: Global,
    net: &Network,
    lits: &[BodyLit],
) -> Result<Option<Vec<Lit>>, Memory>
    requires { All (IsKnown net.now.nets) lits.now }
    ensures { IfOk result (λ found. MatchOption found
        (All (IsLiteral net.now.nets) (literals_said net.now.nets lits.now) → ⊥)
        (λ said. AreLiterals net.now.nets lits.now said.items)) }
{
    net.well_formed();
    let mut said = Vec::with_capacity(alloc, lits.len())?;
    for literal in lits {
        let numbered = literal_said(alloc, net, literal)?;
        if !is_literal(net, &numbered) {
            return Ok(None);
        }
        said.push(numbered)?;
    }
    Ok(Some(said))
}
