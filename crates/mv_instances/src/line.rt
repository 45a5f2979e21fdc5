ghost use Rattle.std.specs.Prelude.{◌≡◌, ◌++◌, ◌∷◌, [], slice_index_or, IfOk, OnOk, OnErr};
ghost use Rattle.mv_fault.specs.Tells.{Tells};
ghost use Rattle.mv_instances.specs.Line.{own_name_faults, instance_name_faults, instance_faults, instance_name, instance_said};

use crate::binding::{check_bindings, read_bindings};
use mv_base::{Memory, Name, NameSet};
use mv_design::Instance;
use mv_fault::ParseFault;
use mv_word::is_model_name;
use std::alloc::Global;

/// Refuses a word that is no lawful name of a model or an instance.
#[tactic(auto, unfolding(crate::specs::Line::own_name_faults))]
fn check_own_name(number: u32, word: &Name) -> Result<(), ParseFault>
    ensures { Tells result (own_name_faults number word.now) }
{
    if !is_model_name(word.bytes()) {
        return Err(ParseFault::BadName {
            line: number,
            name: word.copy()?,
        });
    }
    Ok(())
}

/// Refuses a name that no instance can have, or that another instance has.
#[tactic(auto, using(mv_fault::proofs::Firsts::firsts), unfolding(crate::specs::Line::instance_name_faults))]
fn check_instance_name(number: u32, known: &NameSet, word: &Name) -> Result<(), ParseFault>
    ensures { Tells result (instance_name_faults number known.now word.now) }
{
    check_own_name(number, word)?;
    if known.contains(word) {
        return Err(ParseFault::Repeated {
            line: number,
            name: word.copy()?,
        });
    }
    Ok(())
}

/// Tells the first fault of the words behind the command `word` of an instance, where the instances that its model has so far
/// have these names: too few words, a name that isn't lawful, an instance or a formal with the name of another, or a binding
/// that lacks a side.
#[tactic(auto, using(mv_fault::proofs::Firsts::firsts), unfolding(crate::specs::Line::instance_faults))]
pub fn check_instance(
    alloc: Global,
    known: &NameSet,
    number: u32,
    word: &Name,
    words: &[Name],
) -> Result<(), ParseFault>
    ensures { Tells result (instance_faults number word.now known.now words.now) }
{
    match words {
        [] => Err(ParseFault::Missing {
            line: number,
            word: word.copy()?,
        }),
        [model] => {
            check_own_name(number, model)?;
            Err(ParseFault::Missing {
                line: number,
                word: word.copy()?,
            })
        }
        [model, instance, bindings @ ..] => {
            check_own_name(number, model)?;
            check_instance_name(number, known, instance)?;
            check_bindings(alloc, number, word, bindings)
        }
    }
}

/// The word at this place, or no bytes where there is none.
fn copy_at(alloc: Global, words: &[Name], at: usize) -> Result<Name, Memory>
    ensures { IfOk result (λ name. name ≡ slice_index_or words.now at []) }
{
    match words.get(at) {
        Some(word) => word.copy(),
        None => Name::new(alloc, b""),
    }
}

/// Tells the first fault of an instance's line as `check_instance` does, and adds the instance's name to those of its model. On an
/// error these are as before.
pub fn add_instance(
    alloc: Global,
    known: &mut NameSet,
    number: u32,
    word: &Name,
    words: &[Name],
) -> Result<(), ParseFault>
    ensures fault { Tells result (instance_faults number word.now known.old words.now) }
    ensures ok { OnOk result (known.new ≡ known.old ++ instance_name words.now ∷ []) }
    ensures err { OnErr result (known.new ≡ known.old) }
{
    check_instance(alloc, known, number, word, words)?;
    let _new = known.add(copy_at(alloc, words, 1)?)?;
    Ok(())
}

/// The instance that the words behind the command say, on a line with this number. It is meant for words without a fault: of
/// others, a name that is lacking has no bytes, and so has a side that a binding lacks.
#[tactic(auto, unfolding(crate::specs::Line::instance_said))]
pub fn read_instance(alloc: Global, number: u32, words: &[Name]) -> Result<Instance, Memory>
    ensures { IfOk result (λ instance. instance ≡ instance_said number words.now) }
{
    let (_names, bindings) = words.split_at(words.len().min(2));
    Ok(Instance {
        line: number,
        model: copy_at(alloc, words, 0)?,
        name: copy_at(alloc, words, 1)?,
        binds: read_bindings(alloc, bindings)?,
    })
}
