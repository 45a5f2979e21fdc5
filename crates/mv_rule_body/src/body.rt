ghost use Rattle.std.specs.Prelude.{◌≡◌, IsTrue, IfOk, All, map};
ghost use Rattle.mv_net.specs.Index.{is_held};
ghost use Rattle.mv_rule_body.specs.Named as named;
ghost use Rattle.mv_rule_body.specs.Named.{AreHeld, IsLineHeld, literal_named, literals_named, line_named};

use mv_base::{Items, Memory, Name, PackedSet};
use mv_cover::{Cover, Line, Lit};
use mv_entry::{Body, BodyLine, BodyLit};
use mv_net::Network;
use std::alloc::Global;

/// The table as the body of a rule: each literal, as it stands, by the name of its net, which has to be held; outputs and
/// default as they are.
#[tactic(auto, unfolding(crate::specs::Named::body_of))]
pub fn body_of(alloc: Global, net: &Network, cover: &Cover) -> Result<Body, Memory>
    requires { AreHeld net.now.nets cover.now }
    ensures { IfOk result (λ body. body ≡ named.body_of net.now.nets cover.now) }
{
    Ok(Body {
        lines: lines_of(alloc, net, cover.lines.as_slice())?,
        default: cover.copied_default()?,
    })
}

/// The lines, in order.
fn lines_of(alloc: Global, net: &Network, lines: &[Line]) -> Result<Items<BodyLine>, Memory>
    requires { All (IsLineHeld net.now.nets) lines.now }
    ensures { IfOk result (λ body. body ≡ map (line_named net.now.nets) lines.now) }
{
    let mut body = Items::with_room(alloc, lines.len())?;
    for line in lines {
        body.push(line_of(alloc, net, line)?)?;
    }
    Ok(body)
}

/// A line.
fn line_of(alloc: Global, net: &Network, line: &Line) -> Result<BodyLine, Memory>
    requires { IsLineHeld net.now.nets line.now }
    ensures { IfOk result (λ body. body ≡ line_named net.now.nets line.now) }
{
    Ok(BodyLine {
        lits: literals_of(alloc, net, line.cube.lits())?,
        out: line.out.copy()?,
    })
}

/// The literals, in order.
fn literals_of(alloc: Global, net: &Network, lits: &[Lit]) -> Result<Items<BodyLit>, Memory>
    requires { All (λ (l : Lit). IsTrue (is_held net.now.nets l.net.0)) lits.now }
    ensures { IfOk result (λ body. body ≡ literals_named net.now.nets lits.now) }
{
    let mut body = Items::with_room(alloc, lits.len())?;
    for literal in lits {
        body.push(literal_of(alloc, net, literal)?)?;
    }
    Ok(body)
}

/// A literal.
fn literal_of(alloc: Global, net: &Network, literal: &Lit) -> Result<BodyLit, Memory>
    requires { IsTrue (is_held net.now.nets literal.now.net.0) }
    ensures { IfOk result (λ body. body ≡ literal_named net.now.nets literal.now) }
{
    Ok(BodyLit {
        net: Name::new(alloc, net.name(literal.net()))?,
        set: PackedSet::new(alloc, literal.set())?,
    })
}
