ghost use Rattle.std.specs.Prelude.{◌≡◌, ◌≤◌, length, IfOk};
ghost use Rattle.mv_base.specs.declared.limits.TheConstants.{MAX_MODELS as most_models};
ghost use Rattle.mv_fault.specs.Tells.{Tells};
ghost use Rattle.mv_line.specs.Words.{first_of};
ghost use Rattle.mv_parse.specs.Grammar.{root_faults, lost_faults, root_place};

use crate::known::Root;
use mv_base::{Name, NameSet};
use mv_fault::ParseFault;
use mv_word::is_model_name;

/// The root that the words behind `.root` name, where another may be named already.
#[tactic(auto, using(mv_fault::proofs::Firsts::firsts), unfolding(crate::specs::Grammar::root_faults))]
pub fn read_root(
    number: u32,
    word: &Name,
    earlier: &Option<Root>,
    words: &[Name],
) -> Result<Root, ParseFault>
    ensures fault { Tells result (root_faults number word.now earlier.now words.now) }
    ensures ok { IfOk result (λ root. root ≡ record { line = number; name = first_of words.now }) }
{
    match words {
        [] => Err(ParseFault::Missing {
            line: number,
            word: word.copy()?,
        }),
        [name, ..] if !is_model_name(name.bytes()) => Err(ParseFault::BadName {
            line: number,
            name: name.copy()?,
        }),
        [name, ..] if earlier.is_some() => Err(ParseFault::RootFault {
            line: number,
            name: name.copy()?,
        }),
        [name] => Ok(Root {
            line: number,
            name: name.copy()?,
        }),
        _ => Err(ParseFault::Extra {
            line: number,
            word: word.copy()?,
        }),
    }
}

/// The place of the root among the models with these names, if it is one of them: the first, where no line names it.
pub fn root_place(names: &NameSet, root: Option<Root>) -> Result<u32, ParseFault>
    requires { length names.now ≤ most_models }
    ensures fault { Tells result (lost_faults root names.now) }
    ensures ok { IfOk result (λ place. place ≡ root_place root names.now) }
{
    match root {
        None => Ok(0),
        Some(root) => match names.place(&root.name) {
            Some(place) => Ok(place as u32),
            None => Err(ParseFault::RootFault {
                line: root.line,
                name: root.name,
            }),
        },
    }
}
