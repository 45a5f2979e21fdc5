ghost use Rattle.std.specs.Prelude.{◌≡◌, ◌++◌, OnOk};
ghost use Rattle.mv_fault.specs.Tells.{Tells};
ghost use Rattle.mv_line.specs.Ports.{port_faults};

use mv_base::{Name, NameSet};
use mv_fault::ParseFault;
use mv_word::is_net_name;

/// Adds the names of inputs, or of outputs, to those that stand there already.
#[tactic(auto, using(mv_fault::proofs::Firsts::firsts))]
pub fn add_ports(ports: &mut NameSet, number: u32, words: &[Name]) -> Result<(), ParseFault>
    ensures fault { Tells result (port_faults number ports.old words.now) }
    ensures ok { OnOk result (ports.new ≡ ports.old ++ words.now) }
{
    for word in words {
        if !is_net_name(word.bytes()) {
            return Err(ParseFault::BadName {
                line: number,
                name: word.copy()?,
            });
        }
        if !ports.add(word.copy()?)? {
            return Err(ParseFault::Repeated {
                line: number,
                name: word.copy()?,
            });
        }
    }
    Ok(())
}
