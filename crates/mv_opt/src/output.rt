ghost use Rattle.std.specs.Prelude.{◌≡◌, count_by};
ghost use Rattle.mv_base.specs.Outside.{Appends};
ghost use Rattle.mv_format.specs.Chosen.{format_of, HasSettings};
ghost use Rattle.mv_opt.specs.Outputs.{is_named_kind, is_told, output_text, summary_of};

use mv_base::{Failed, Sink};
use mv_entry::Tally;
use mv_format::{FileFormat, FileNetwork, write_network};
use mv_net::{FlatNet, Kind, Network};
use mv_work::{Summary, put_summary};

/// What a run writes at its end.
#[derive(Clone, Copy, Debug, PartialEq, Eq)]
pub enum Output {
    /// The text of the network that is left.
    Network,
    /// A summary of the run.
    Summary,
}

/// Whether the net isn't that of a reset value.
fn is_named_kind(kind: Kind) -> bool
    ensures { result ≡ is_named_kind kind }
{
    match kind {
        Kind::Input | Kind::Latch | Kind::Table => true,
        Kind::Reset => false,
    }
}

/// Whether the net is held, and isn't that of a reset value.
fn is_told(net: &Option<FlatNet>) -> bool
    ensures { result ≡ is_told net.now }
{
    match net {
        Some(net) => is_named_kind(net.kind),
        None => false,
    }
}

/// How many of these nets a summary tells.
fn nets_told(nets: &[Option<FlatNet>]) -> usize
    ensures { result ≡ count_by is_told nets.now }
{
    let mut count = 0;
    for net in nets {
        if is_told(net) {
            count += 1;
        }
    }
    count
}

/// The summary of a run that leaves the network.
#[tactic(auto, unfolding(crate::specs::Outputs::summary_of))]
fn summary_of(net: &Network, before: u128, tally: Tally) -> Summary
    ensures { result ≡ summary_of before tally net.now }
{
    Summary {
        nets: nets_told(net.parts().nets.as_slice()) as u64,
        literals_before: before,
        literals_after: net.literals(),
        commands: tally.begun,
        rules: tally.rules,
        dropped: tally.dropped,
    }
}

/// Puts what a run writes to the output, a network as a text of this format. It takes no memory.
pub fn put_output<O: Sink>(
    output: Output,
    format: FileFormat,
    file: &FileNetwork,
    before: u128,
    tally: Tally,
    out: &mut O,
) -> Result<(), Failed>
    requires { HasSettings format file.now }
    ensures { Appends (O.state out.old) (O.state out.new)
        (output_text (format_of format) output before tally file.now) result }
{
    match output {
        Output::Network => write_network(format, file, out),
        Output::Summary => {
            let summary = summary_of(&file.net, before, tally);
            put_summary(&summary, out)
        }
    }
}
