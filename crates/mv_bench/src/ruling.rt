use crate::lexing::lines_of_input;
use crate::stop::Stop;
use mv_base::{DEFAULT_BUDGET, Items, Name, PackedSet, Value, ValueSet};
use mv_net::Network;
use mv_read::network_of;
use mv_rules::{Body, BodyLine, BodyLit, Rule, apply};
use std::alloc::Global;
use std::fmt;
use std::time::Instant;

/// How many inputs `a` and as many `b` the nets share.
const INPUTS: u32 = 500;

/// What rules came to.
#[derive(Clone, Copy, Debug, PartialEq, Eq)]
pub struct Applied {
    applied: u64,
    literals: u128,
    micros: u128,
}

impl fmt::Display for Applied {
    fn fmt<W: fmt::Write>(&self, f: &mut fmt::Formatter<W>) -> fmt::Result {
        write!(
            f,
            "{} applied, {} literals, {} microseconds",
            self.applied, self.literals, self.micros
        )
    }
}

/// The name of a letter and a number.
fn name(alloc: Global, letter: &str, number: u32) -> Result<Name, Stop> {
    let text = format!(in alloc; "{letter}{number}")?;
    Ok(Name::new(alloc, text.as_bytes())?)
}

/// The literal that a net is 1.
fn is_one(alloc: Global, net: Name) -> Result<BodyLit, Stop> {
    Ok(BodyLit {
        net,
        set: PackedSet::new(alloc, ValueSet::one(Value(1)))?,
    })
}

/// A body that is 1 where both nets are, and else 0.
fn product(alloc: Global, first: Name, second: Name) -> Result<Body, Stop> {
    let mut lits = Items::new(alloc);
    lits.push(is_one(alloc, first)?)?;
    lits.push(is_one(alloc, second)?)?;
    let mut lines = Items::new(alloc);
    lines.push(BodyLine {
        lits,
        out: PackedSet::new(alloc, ValueSet::one(Value(1)))?,
    })?;
    Ok(Body {
        lines,
        default: Some(PackedSet::new(alloc, ValueSet::one(Value(0)))?),
    })
}

/// The rule of a kind for the nets of a number.
fn rule(alloc: Global, kind: &str, number: u32) -> Result<Rule, Stop> {
    let input = number % INPUTS;
    match kind {
        "remove" => Ok(Rule::Remove {
            net: name(alloc, "u", number)?,
        }),
        "wire" => Ok(Rule::Wire {
            net: name(alloc, "y", number)?,
        }),
        "collapse" => Ok(Rule::Collapse {
            net: name(alloc, "c", number)?,
        }),
        "add" => Ok(Rule::Add {
            net: name(alloc, "k", number)?,
            body: product(alloc, name(alloc, "a", input)?, name(alloc, "b", input)?)?,
        }),
        "divide" => Ok(Rule::Divide {
            net: name(alloc, "f", number)?,
            by: name(alloc, "g", number)?,
            body: product(alloc, name(alloc, "g", number)?, name(alloc, "b", input)?)?,
        }),
        _ => Err(Stop::Words),
    }
}

/// Applies the rules of a kind for the numbers below `count`, and takes the time of all.
fn apply_each(
    rt: &HostRuntime,
    net: &mut Network,
    kind: &str,
    count: u32,
) -> Result<Applied, Stop> {
    let start = Instant::now(rt)?;
    let mut applied: u64 = 0;
    for number in 0..count {
        let rule = rule(rt.alloc(), kind, number)?;
        if apply(rt.alloc(), net, &rule, DEFAULT_BUDGET as u32).is_ok() {
            applied = applied.saturating_add(1);
        }
    }
    Ok(Applied {
        applied,
        literals: net.literals(),
        micros: start.elapsed(rt)?.as_micros(),
    })
}

/// Reads standard input as a network file, and applies rules of a kind to the nets that are numbered for it.
#[tactic(auto, using(mv_parse_laws::proofs::FileLines::file_ascends))]
pub fn ruled(rt: &HostRuntime, kind: &str, count: &str) -> Result<Applied, Stop> {
    let count: u32 = count.parse().map_err(|_error| Stop::Words)?;
    let mut net = match network_of(rt.alloc(), lines_of_input(rt)?) {
        Ok(net) => net,
        Err(_fault) => return Err(Stop::Network),
    };
    apply_each(rt, &mut net, kind, count)
}
