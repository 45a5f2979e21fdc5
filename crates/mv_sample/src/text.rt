//! Texts on one line, in which `;` stands for a line's end, and the networks that they say.
ghost use Rattle.std.specs.Prelude.{IfOk};
ghost use Rattle.mv_parse_laws.specs.Lines.{AreOfFile};

use mv_base::MAX_NETWORK_BYTES;
use mv_cover::Cover;
use mv_lex::{Lexer, Lines};
use mv_net::Network;
use mv_read::network_of;
use std::alloc::Global;
use std::test::Fail;

/// The lines of a text, in which `;` stands for a line's end. It fails with the first fault of the text's bytes, or for want of
/// memory.
pub fn lines(alloc: Global, text: &str) -> Result<Lines, Fail>
    ensures { IfOk result AreOfFile }
{
    let mut lines = Lines::new(alloc);
    let mut lexer = Lexer::new(alloc, MAX_NETWORK_BYTES);
    for line in text.split(';') {
        lexer.feed(line.as_bytes(), &mut lines)?;
        lexer.feed(b"\n", &mut lines)?;
    }
    lexer.finish(&mut lines)?;
    Ok(lines)
}

/// The network of a text, in which `;` stands for a line's end. It fails with the fault of the text, or for want of memory.
#[tactic(auto, using(mv_parse_laws::proofs::FileLines::file_ascends))]
pub fn network(alloc: Global, text: &str) -> Result<Network, Fail> {
    Ok(network_of(alloc, lines(alloc, text)?)?)
}

/// The cover of the net `z` in a network.
fn cover_of(net: &Network) -> Result<Cover, Fail> {
    match net.find(b"z") {
        Some(z) if net.holds(z) => Ok(net.table(z).ok_or("no table")?.copy()?),
        _ => Err("no net")?,
    }
}

/// The cover of the net `z` in the network of a text. It fails also where no net `z` has a table.
pub fn cover(alloc: Global, text: &str) -> Result<Cover, Fail> {
    let net = network(alloc, text)?;
    cover_of(&net)
}
