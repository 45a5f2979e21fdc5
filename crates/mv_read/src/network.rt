ghost use Rattle.std.specs.Prelude.{◌≡◌, true, IfOk, IfErr};
ghost use Rattle.mv_design.specs.Proper.{numbers_ascend};
ghost use Rattle.mv_parse_laws.specs.Lines.{numbers_of};
ghost use Rattle.mv_read.specs.Reads.{IsNetOf, IsFaultOf, parse_refused, flat_refused};

use mv_fault::FlatFault;
use mv_flat::flatten_owned;
use mv_lex::Lines;
use mv_net::Network;
use mv_parse::{ParseFault, parse_owned};
use std::alloc::Global;

/// Why lines give no network: their first fault, a fault of the design that they say, or want of memory.
#[derive(Debug, Drop)]
pub enum NetFault {
    Parse(ParseFault),
    Flat(FlatFault),
    Memory,
}

/// The parser's fault.
fn parse_refused(fault: ParseFault) -> NetFault
    ensures { result ≡ parse_refused fault }
{
    match fault {
        ParseFault::Memory => NetFault::Memory,
        fault => NetFault::Parse(fault),
    }
}

/// The fault of a design.
fn flat_refused(fault: FlatFault) -> NetFault
    ensures { result ≡ flat_refused fault }
{
    match fault {
        FlatFault::Memory => NetFault::Memory,
        fault => NetFault::Flat(fault),
    }
}

/// The network that the lines say, where each line's number is greater than that of the line before. The lines are let go while their design is made, and its tables while the network is.
#[tactic(auto, using(crate::proofs::Refused::networks))]
pub fn network_of(alloc: Global, lines: Lines) -> Result<Network, NetFault>
    requires { numbers_ascend (numbers_of lines) ≡ true }
    ensures ok { IfOk result (λ net. IsNetOf lines net) }
    ensures fault { IfErr result (IsFaultOf lines) }
{
    let design = match parse_owned(alloc, lines) {
        Ok(design) => design,
        Err(fault) => return Err(parse_refused(fault)),
    };
    match flatten_owned(alloc, design) {
        Ok(net) => Ok(net),
        Err(fault) => Err(flat_refused(fault)),
    }
}
