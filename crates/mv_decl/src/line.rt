ghost use Rattle.std.specs.Prelude.{◌≡◌, ◌<◌, ◌≤◌, ◌||◌, not, true, ℕ, List, length, drop, IfOk, OnOk, OnErr};
ghost use Rattle.mv_base.specs.declared.limits.TheConstants.{MAX_VALUES as most_values};
ghost use Rattle.mv_base.specs.Names.{among};
ghost use Rattle.mv_fault.specs.declared.fault.ParseFault.{ParseFault};
ghost use Rattle.mv_fault.specs.Tells.{Tells};
ghost use Rattle.mv_design.specs.Values.{values_of, declared_of};
ghost use Rattle.mv_decl.specs.Nets.{with_decls};
ghost use Rattle.mv_decl.specs.Line.{net_name_faults, front_of, front_faults, redeclared_faults, decls_for, decl_faults, decls_said, nets_said, values_said};

use crate::Decls;
use crate::commas::{apart, is_comma};
use crate::count::{is_digits, values};
use mv_base::{Items, Memory, Name};
use mv_fault::ParseFault;
use mv_word::is_net_name;
use std::alloc::Global;

/// Reads the words behind `.mv`, which is `word`, on the line of this number, as the description of BLIF-MV by Kukimoto has
/// it: the names of nets, with or without commas between them, the count of their values, from 1 to the most that a net may
/// have, and the names of these, if they aren't the numbers from 0. Each net that isn't declared yet is declared so.
/// A fault is the first of the line: Missing, BadName, BadCount, Limit, Repeated, ValueNames or Redeclared. Then, and where
/// memory is short, nothing is declared.
#[tactic(auto, using(mv_fault::proofs::Firsts::firsts), unfolding(crate::specs::Line::decl_faults, crate::specs::Line::decls_said, crate::specs::Line::nets_said, crate::specs::Line::values_said))]
pub fn declare(
    alloc: Global,
    decls: &mut Decls,
    number: u32,
    word: &Name,
    words: &[Name],
) -> Result<(), ParseFault>
    ensures fault { Tells result (decl_faults number word.now decls.old words.now) }
    ensures ok { OnOk result (decls.new ≡ with_decls decls.old (decls_said words.now)) }
    ensures err { OnErr result (decls.new ≡ decls.old) }
    ensures said { OnOk result
        ((net : List ℕ) → among net (nets_said words.now) ≡ true
        → values_of decls.new net ≡ values_said words.now) }
    ensures kept { OnOk result
        ((net : List ℕ)
        → (among net (declared_of decls.old) || not (among net (nets_said words.now))) ≡ true
        → values_of decls.new net ≡ values_of decls.old net) }
{
    let words = apart(alloc, words)?;
    let head = read_head(alloc, number, word, words.as_slice())?;
    let (count, names) = words.as_slice()[head.count..].split_first().unwrap();
    let values = values(alloc, number, count, names)?;
    declare_nets(decls, number, head.nets.as_slice(), &values)
}

/// The nets of a line, and the place of its count among the words.
#[derive(Drop)]
struct Head {
    nets: Items<Name>,
    count: usize,
}

/// Reads the words up to the count.
#[tactic(auto, using(mv_fault::proofs::Firsts::firsts))]
fn read_head(alloc: Global, line: u32, word: &Name, words: &[Name]) -> Result<Head, ParseFault>
    ensures fault { Tells result (front_faults line word.now (front_of words.now)) }
    ensures nets { IfOk result (λ head. head.nets ≡ (front_of words.now).nets) }
    ensures count { IfOk result (λ head. drop head.count words.now ≡ (front_of words.now).rest) }
    ensures within { IfOk result (λ head. head.count < length words.now) }
{
    let mut nets = Items::new(alloc);
    let mut wants_name = true;
    for (at, piece) in words.iter().enumerate() {
        if is_comma(piece) {
            if wants_name {
                return Err(ParseFault::Missing {
                    line,
                    word: word.copy()?,
                });
            }
            wants_name = true;
        } else if !wants_name && is_digits(piece) {
            return Ok(Head { nets, count: at });
        } else {
            nets.push(net_name(line, piece)?)?;
            wants_name = false;
        }
    }
    Err(ParseFault::Missing {
        line,
        word: word.copy()?,
    })
}

/// The word as the name of a net.
#[tactic(auto, unfolding(crate::specs::Line::net_name_faults))]
fn net_name(line: u32, word: &Name) -> Result<Name, ParseFault>
    ensures fault { Tells result (net_name_faults line word.now) }
    ensures ok { IfOk result (λ name. name ≡ word.now) }
{
    if !is_net_name(word.bytes()) {
        return Err(ParseFault::BadName {
            line,
            name: word.copy()?,
        });
    }
    Ok(word.copy()?)
}

/// Declares the nets with these values, unless one of them is declared with others.
fn declare_nets(
    decls: &mut Decls,
    line: u32,
    nets: &[Name],
    values: &Items<Name>,
) -> Result<(), ParseFault>
    requires some { 0 < length values.now }
    requires within { length values.now ≤ most_values }
    ensures fault { Tells result (redeclared_faults line decls.old values.now nets.now) }
    ensures ok { OnOk result (decls.new ≡ with_decls decls.old (decls_for values.now nets.now)) }
    ensures err { OnErr result (decls.new ≡ decls.old) }
    ensures said { OnOk result
        ((net : List ℕ) → among net nets.now ≡ true → values_of decls.new net ≡ values.now) }
    ensures kept { OnOk result
        ((net : List ℕ) → (among net (declared_of decls.old) || not (among net nets.now)) ≡ true
        → values_of decls.new net ≡ values_of decls.old net) }
{
    check_known(decls, line, nets, values.as_slice())?;
    declare_all(decls, nets, values)?;
    Ok(())
}

/// Looks for the first net that is declared with other values.
fn check_known(decls: &Decls, line: u32, nets: &[Name], values: &[Name]) -> Result<(), ParseFault>
    ensures { Tells result (redeclared_faults line decls.now values.now nets.now) }
{
    for net in nets {
        if decls.is_redeclared(net, values) {
            return Err(ParseFault::Redeclared {
                line,
                name: net.copy()?,
            });
        }
    }
    Ok(())
}

/// Declares the nets with these values. On an error nothing has changed.
fn declare_all(decls: &mut Decls, nets: &[Name], values: &Items<Name>) -> Result<(), Memory>
    requires some { 0 < length values.now }
    requires within { length values.now ≤ most_values }
    ensures ok { OnOk result (decls.new ≡ with_decls decls.old (decls_for values.now nets.now)) }
    ensures err { OnErr result (decls.new ≡ decls.old) }
{
    let before = decls.len();
    for net in nets {
        if let Err(failed) = decls.add(net, values) {
            decls.truncate(before);
            return Err(failed);
        }
    }
    Ok(())
}
