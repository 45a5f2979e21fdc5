ghost use Rattle.std.specs.Prelude.{◌≡◌, true, IfOk, IfErr};
ghost use Rattle.mv_design.specs.Proper.{numbers_ascend};
ghost use Rattle.mv_parse_laws.specs.Lines.{numbers_of};
ghost use Rattle.mv_blif_read.specs.Reads.{IsBlifNetOf, IsFaultOf, parse_refused, flat_refused};

use mv_base::Items;
use mv_blif::{BlifDesign, BlifFault, BlifLatch, read_blif};
use mv_fault::FlatFault;
use mv_flat::flatten_owned;
use mv_lex::Lines;
use mv_net::Network;
use std::alloc::Global;

/// The network of a network file, and what the file says of each of its latches in order besides its nets: BLIF says something of
/// each, BLIF-MV nothing of any.
#[derive(Drop)]
pub struct FileNetwork {
    pub net: Network,
    pub latches: Items<BlifLatch>,
}

/// Why lines give no network: their first fault, a fault of the design that they say, or want of memory.
#[derive(Debug, Drop)]
pub enum BlifNetFault {
    Parse(BlifFault),
    Flat(FlatFault),
    Memory,
}

/// The reader's fault.
fn parse_refused(fault: BlifFault) -> BlifNetFault
    ensures { result ≡ parse_refused fault }
{
    match fault {
        BlifFault::Memory => BlifNetFault::Memory,
        fault => BlifNetFault::Parse(fault),
    }
}

/// The fault of a design.
fn flat_refused(fault: FlatFault) -> BlifNetFault
    ensures { result ≡ flat_refused fault }
{
    match fault {
        FlatFault::Memory => BlifNetFault::Memory,
        fault => BlifNetFault::Flat(fault),
    }
}

/// The network that the lines of a BLIF file say, with what they say of its latches, where each line's number is greater than that
/// of the line before. The lines are let go before the network is made, and the design's tables while it is.
#[tactic(auto, using(crate::proofs::Refused::networks))]
pub fn blif_network_of(alloc: Global, lines: Lines) -> Result<FileNetwork, BlifNetFault>
    requires { numbers_ascend (numbers_of lines) ≡ true }
    ensures ok { IfOk result (IsBlifNetOf lines) }
    ensures fault { IfErr result (IsFaultOf lines) }
{
    let BlifDesign { design, latches } = match read_blif(alloc, &lines) {
        Ok(read) => read,
        Err(fault) => return Err(parse_refused(fault)),
    };
    drop(lines);
    match flatten_owned(alloc, design) {
        Ok(net) => Ok(FileNetwork { net, latches }),
        Err(fault) => Err(flat_refused(fault)),
    }
}
