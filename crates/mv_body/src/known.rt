ghost use Rattle.std.specs.Prelude.{◌↔◌, All, IsTrue, MatchBool};
ghost use Rattle.mv_body.specs.Bodies.{IsKnown, AreKnown};

use mv_entry::{Body, BodyLit};
use mv_net::{Kind, Network};

/// Whether each literal of the body names a held net that can be read. It takes no memory.
pub fn is_known(net: &Network, body: &Body) -> bool
    ensures { MatchBool result (AreKnown net.now.nets body.now)
        (AreKnown net.now.nets body.now → ⊥) }
{
    for line in body.lines.as_slice() {
        if !are_known(net, line.lits.as_slice()) {
            return false;
        }
    }
    true
}

/// Whether each of the literals names a held net that can be read.
fn are_known(net: &Network, lits: &[BodyLit]) -> bool
    ensures { IsTrue result ↔ All (IsKnown net.now.nets) lits.now }
{
    lits.iter().all(|literal| is_literal_known(net, literal))
}

/// Whether the literal names a held net that can be read.
fn is_literal_known(net: &Network, literal: &BodyLit) -> bool
    ensures { IsTrue result ↔ IsKnown net.now.nets literal.now }
{
    net.well_formed();
    let Some(number) = net.find(literal.net.bytes()) else {
        return false;
    };
    match net.kind(number) {
        Kind::Reset => false,
        Kind::Input | Kind::Latch | Kind::Table => true,
    }
}
