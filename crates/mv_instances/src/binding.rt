ghost use Rattle.std.specs.Prelude.{◌≡◌, ◌≤◌, ◌+◌, ◌++◌, ◌∷◌, [], length, map, IfOk, OnOk};
ghost use Rattle.mv_fault.specs.Tells.{Tells};
ghost use Rattle.mv_instances.specs.Binding.{equal_at, before_equal, behind_equal, binding_of, binding_faults, bindings_faults};

use mv_base::{Items, Memory, Name, NameSet};
use mv_design::Bind;
use mv_fault::ParseFault;
use mv_word::is_net_name;
use std::alloc::Global;

/// The place of the first `=`, or the length where there is none.
fn equal_at(word: &[u8]) -> usize
    ensures place { result ≡ equal_at word.now }
    ensures within { result ≤ length word.now }
{
    for (at, byte) in word.iter().enumerate() {
        if *byte == b'=' {
            return at;
        }
    }
    word.len()
}

/// What stands before the first `=`.
#[tactic(auto, unfolding(crate::specs::Binding::before_equal))]
fn before_equal(word: &[u8]) -> &[u8]
    ensures { result.now ≡ before_equal word.now }
{
    &word[..equal_at(word)]
}

/// What stands behind the first `=`.
#[tactic(auto, unfolding(crate::specs::Binding::behind_equal))]
fn behind_equal(word: &[u8]) -> &[u8]
    ensures { result.now ≡ behind_equal word.now }
{
    let at = equal_at(word);
    if at < word.len() {
        &word[at + 1..]
    } else {
        &[]
    }
}

/// Tells the first fault of a binding, and adds its formal to those that are bound already.
#[tactic(auto, using(mv_fault::proofs::Firsts::firsts), unfolding(crate::specs::Binding::binding_faults))]
fn add_binding(
    alloc: Global,
    bound: &mut NameSet,
    number: u32,
    word: &Name,
    binding: &[u8],
) -> Result<(), ParseFault>
    ensures fault { Tells result
        (binding_faults number word.now bound.old (binding_of binding.now)) }
    ensures ok { OnOk result (bound.new ≡ bound.old ++ before_equal binding.now ∷ []) }
{
    let formal = before_equal(binding);
    let actual = behind_equal(binding);
    if formal.is_empty() || actual.is_empty() {
        return Err(ParseFault::Missing {
            line: number,
            word: word.copy()?,
        });
    }
    if !is_net_name(formal) {
        return Err(ParseFault::BadName {
            line: number,
            name: Name::new(alloc, formal)?,
        });
    }
    if !bound.add(Name::new(alloc, formal)?)? {
        return Err(ParseFault::Repeated {
            line: number,
            name: Name::new(alloc, formal)?,
        });
    }
    if !is_net_name(actual) {
        return Err(ParseFault::BadName {
            line: number,
            name: Name::new(alloc, actual)?,
        });
    }
    Ok(())
}

/// Tells the first fault of the bindings of a line. Each formal is looked up among those before it by its bytes.
#[tactic(auto, using(mv_fault::proofs::Firsts::firsts))]
pub fn check_bindings(
    alloc: Global,
    number: u32,
    word: &Name,
    bindings: &[Name],
) -> Result<(), ParseFault>
    ensures { Tells result (bindings_faults number word.now [] bindings.now) }
{
    let mut bound = NameSet::new(alloc);
    for binding in bindings {
        add_binding(alloc, &mut bound, number, word, binding.bytes())?;
    }
    Ok(())
}

/// The binding that a word says.
fn read_binding(alloc: Global, word: &[u8]) -> Result<Bind, Memory>
    ensures { IfOk result (λ bind. bind ≡ binding_of word.now) }
{
    Ok(Bind {
        formal: Name::new(alloc, before_equal(word))?,
        actual: Name::new(alloc, behind_equal(word))?,
    })
}

/// The bindings that words say.
pub fn read_bindings(alloc: Global, words: &[Name]) -> Result<Items<Bind>, Memory>
    ensures { IfOk result (λ binds. binds ≡ map binding_of words.now) }
{
    let mut binds = Items::with_room(alloc, words.len())?;
    for word in words {
        binds.push(read_binding(alloc, word.bytes())?)?;
    }
    Ok(binds)
}
