//! What rules answer on a network, and what they leave.
use crate::rules::rule;
use mv_base::MemorySink;
use mv_net::Network;
use mv_rules::{Rule, RuleFault, apply, apply_free, literals_after};
use mv_sample::{network, said_of};
use mv_write::write;
use std::alloc::Global;
use std::test::Fail;

/// Puts the literals that the rule is told to leave, or its fault.
fn put_told(said: &mut String, alloc: Global, net: &Network, rule: &Rule) -> Result<(), Fail> {
    match literals_after(alloc, net, rule, 1000) {
        Ok(literals) => Ok(write!(said, "{literals}=")?),
        Err(fault) => Ok(write!(said, "{fault:?}=")?),
    }
}

/// Puts the literals that are left, or the fault.
fn put_left(said: &mut String, net: &Network, left: Result<(), RuleFault>) -> Result<(), Fail> {
    match left {
        Ok(()) => Ok(write!(said, "{}", net.literals())?),
        Err(fault) => Ok(write!(said, "{fault:?}")?),
    }
}

/// Puts what is told of the rule of a text, and what it leaves. Behind the word `free` a rule may leave choices that weren't there.
fn put_answer(said: &mut String, alloc: Global, net: &mut Network, text: &str) -> Result<(), Fail> {
    let free = text.strip_prefix("free ");
    let rule = rule(alloc, free.unwrap_or(text))?;
    put_told(said, alloc, net, &rule)?;
    let left = if free.is_some() {
        apply_free(alloc, net, &rule, 1000)
    } else {
        apply(alloc, net, &rule, 1000)
    };
    put_left(said, net, left)
}

/// What the rules, with ` / ` between them, answer one after the other.
fn answers(alloc: Global, net: &mut Network, rules: &str) -> Result<String, Fail> {
    let mut said = String::new(alloc);
    for text in rules.split(" / ") {
        if !said.is_empty() {
            said.push_str(" ")?;
        }
        put_answer(&mut said, alloc, net, text)?;
    }
    Ok(said)
}

/// What the rules answer on the network of a text.
pub fn answered(alloc: Global, text: &str, rules: &str) -> Result<String, Fail> {
    let mut net = network(alloc, text)?;
    answers(alloc, &mut net, rules)
}

/// Puts bytes, with `;` for a line's end.
fn put_on_one_line(said: &mut String, bytes: &[u8]) -> Result<(), Fail> {
    for byte in bytes {
        let letter = if *byte == b'\n' {
            ';'
        } else {
            char::from(*byte)
        };
        said.push(letter)?;
    }
    Ok(())
}

/// Puts the text of the network, with `;` for a line's end.
fn put_written(said: &mut String, alloc: Global, net: &Network) -> Result<(), Fail> {
    let mut out = MemorySink::new(alloc, 4096, Vec::new(alloc))?;
    write(net, &mut out)?;
    put_on_one_line(said, out.bytes())
}

/// A network with the same parts, of which nothing is kept but what is made of them.
fn made_anew(alloc: Global, net: &Network) -> Result<Network, Fail> {
    net.well_formed();
    net.few();
    Ok(Network::make(alloc, net.parts().copy()?)?)
}

/// What a network answers that is made anew of the parts of this one.
fn said_anew(alloc: Global, net: &Network) -> Result<String, Fail> {
    let anew = made_anew(alloc, net)?;
    said_of(alloc, &anew)
}

/// Puts so where the network answers otherwise than one that is made anew of its parts.
fn put_anew(said: &mut String, alloc: Global, net: &Network) -> Result<(), Fail> {
    let own = said_of(alloc, net)?;
    let anew = said_anew(alloc, net)?;
    if own.as_str() != anew.as_str() {
        said.push_str(" otherwise than made anew")?;
    }
    Ok(())
}

/// What the rules answer on the network, and what they leave.
fn behaviour_on(alloc: Global, net: &mut Network, rules: &str) -> Result<String, Fail> {
    let mut said = answers(alloc, net, rules)?;
    said.push_str(" | ")?;
    put_written(&mut said, alloc, net)?;
    put_anew(&mut said, alloc, net)?;
    Ok(said)
}

/// What the rules answer on the network of a text, and the network that they leave.
pub fn behaviour(alloc: Global, text: &str, rules: &str) -> Result<String, Fail> {
    let mut net = network(alloc, text)?;
    behaviour_on(alloc, &mut net, rules)
}
