//! One visit of `encode`: a net is let be, or it is noted why it stays, or nets of two values take its place.
ghost use Rattle.std.specs.Prelude.{◌≡◌, IfOk, MatchBool};
ghost use Rattle.mv_encode.specs.Encodes.{IsToEncode, StaysFor};
ghost use Rattle.mv_encode.specs.Encoding.{Answers, IsRuleFor, WasRefused};

use crate::Stop;
use crate::codes::{codes_of, fewest_bits};
use crate::names::first_names;
use mv_base::{Memory, Name, NetId};
use mv_entry::{Journal, Rule, RuleFault, Why};
use mv_net::Network;
use mv_pass::attempt;
use mv_rules::Terms;
use mv_visit::{has_table, note_why};
use std::alloc::Global;

/// The fewest values of a net that is to be encoded.
const FEWEST: u16 = 3;

/// Whether the net of this number is to be encoded: it isn't seen, and has a table, and three values or more.
fn is_to_encode(net: &Network, n: NetId) -> bool
    ensures { MatchBool result (IsToEncode net.now n.0) (IsToEncode net.now n.0 → ⊥) }
{
    if !has_table(net, n) {
        return false;
    }
    if net.is_seen(n) {
        return false;
    }
    if net.values(n) < FEWEST {
        return false;
    }
    true
}

/// The rule by which nets of two values take the net's place.
fn rule_for(alloc: Global, net: &Network, n: NetId) -> Result<Rule, Memory>
    requires { IsToEncode net.now n.0 }
    ensures { IfOk result (IsRuleFor net.now n.0) }
{
    net.well_formed();
    let values = net.values(n);
    let bits = fewest_bits(values);
    let names = first_names(alloc, net, bits)?;
    let codes = codes_of(alloc, bits, values)?;
    let name = Name::new(alloc, net.name(n))?;
    Ok(Rule::Encode {
        net: name,
        names,
        codes,
    })
}

/// Notes why the net stays.
fn note_reason<J: Journal>(
    alloc: Global,
    net: &Network,
    n: NetId,
    why: Why,
    terms: Terms,
    journal: &mut J,
) -> Result<Option<Name>, Stop>
    requires to_encode { IsToEncode net.now n.0 }
    requires stays { StaysFor net.now n.0 why }
    ensures { Answers terms.free n.0 net.now net.now (J.state journal.old) (J.state journal.new)
        result }
{
    match note_why(alloc, net, n, why, journal) {
        Ok(()) => Ok(None),
        Err(stop) => Err(stop),
    }
}

/// Notes why the net stays, for which the rule was refused; or where the numbers run out, tells the name of the first net that was to
/// come.
fn refuse<J: Journal>(
    alloc: Global,
    net: &Network,
    n: NetId,
    rule: &Rule,
    fault: RuleFault,
    terms: Terms,
    journal: &mut J,
) -> Result<Option<Name>, Stop>
    requires to_encode { IsToEncode net.now n.0 }
    requires refused { WasRefused net.now n.0 rule.now fault }
    ensures { Answers terms.free n.0 net.now net.now (J.state journal.old) (J.state journal.new)
        result }
{
    net.well_formed();
    net.few();
    match fault {
        RuleFault::Varied => note_reason(alloc, net, n, Why::Varied, terms, journal),
        RuleFault::Wide => note_reason(alloc, net, n, Why::Lines, terms, journal),
        RuleFault::Nets => match net.fresh_name(0) {
            Ok(name) => Ok(Some(name)),
            Err(_memory) => Err(Stop::Memory),
        },
        _ => unreachable!(),
    }
}

/// Visits the net of this number: nets of two values take its place, where it is to be encoded, or it is noted why it stays. Where the
/// numbers run out nothing is done, and the name of the first net that was to come is told.
pub fn visit<J: Journal>(
    alloc: Global,
    net: &mut Network,
    n: NetId,
    terms: Terms,
    journal: &mut J,
) -> Result<Option<Name>, Stop>
    ensures { Answers terms.free n.0 net.old net.new (J.state journal.old) (J.state journal.new)
        result }
{
    if !is_to_encode(net, n) {
        return Ok(None);
    }
    let rule = match rule_for(alloc, net, n) {
        Ok(rule) => rule,
        Err(_memory) => return Err(Stop::Memory),
    };
    match attempt(alloc, net, &rule, terms, journal) {
        Ok(None) => Ok(None),
        Ok(Some(fault)) => refuse(alloc, net, n, &rule, fault, terms, journal),
        Err(stop) => Err(stop),
    }
}
