ghost use Rattle.std.specs.Prelude.{◌≡◌, ◌++◌, OnOk};
ghost use Rattle.mv_blif_line.specs.Faults.{Tells};
ghost use Rattle.mv_blif_line.specs.Heads.{model_faults, ports_faults, columns_faults, end_faults};

use crate::fault::BlifFault;
use mv_base::{Name, NameSet};
use mv_fault::ParseFault;
use mv_word::is_model_name;

/// Tells the first fault of the words behind `.model`, where `begun` says that a line before begins a model.
#[tactic(auto, using(mv_fault::proofs::Firsts::firsts), unfolding(crate::specs::Heads::model_faults))]
pub fn check_model(number: u32, word: &Name, begun: bool, words: &[Name]) -> Result<(), BlifFault>
    ensures { Tells result (model_faults number word.now begun words.now) }
{
    match words {
        [] => Err(BlifFault::Line(ParseFault::Missing {
            line: number,
            word: word.copy()?,
        })),
        [name, ..] if !is_model_name(name.bytes()) => Err(BlifFault::Line(ParseFault::BadName {
            line: number,
            name: name.copy()?,
        })),
        [name, ..] if begun => Err(BlifFault::SecondModel {
            line: number,
            name: name.copy()?,
        }),
        [_name] => Ok(()),
        _ => Err(BlifFault::Line(ParseFault::Extra {
            line: number,
            word: word.copy()?,
        })),
    }
}

/// Adds the names of inputs, or of outputs, to those that stand there already.
#[tactic(auto, using(crate::proofs::Shared::told_shared))]
pub fn add_ports(ports: &mut NameSet, number: u32, words: &[Name]) -> Result<(), BlifFault>
    ensures fault { Tells result (ports_faults number ports.old words.now) }
    ensures ok { OnOk result (ports.new ≡ ports.old ++ words.now) }
{
    Ok(mv_line::add_ports(ports, number, words)?)
}

/// Tells the first fault of the words behind the command `word` that begins a table.
#[tactic(auto, using(crate::proofs::Shared::sharing), unfolding(crate::specs::Heads::columns_faults))]
pub fn check_names(number: u32, word: &Name, words: &[Name]) -> Result<(), BlifFault>
    ensures { Tells result (columns_faults number word.now words.now) }
{
    mv_table::check_names(number, 0, words)?;
    if words.is_empty() {
        return Err(BlifFault::Line(ParseFault::Missing {
            line: number,
            word: word.copy()?,
        }));
    }
    Ok(())
}

/// Tells a word behind `.end`.
#[tactic(auto, unfolding(crate::specs::Heads::end_faults))]
pub fn check_end(number: u32, word: &Name, words: &[Name]) -> Result<(), BlifFault>
    ensures { Tells result (end_faults number word.now words.now) }
{
    if !words.is_empty() {
        return Err(BlifFault::Line(ParseFault::Extra {
            line: number,
            word: word.copy()?,
        }));
    }
    Ok(())
}
