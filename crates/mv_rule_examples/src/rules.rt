//! Rules from texts: `remove k`, `wire k`, `collapse k`, `fill k 01`, `merge k 2`, `merge k 2 1`, `encode k p,q 00,01,10`, `add k BODY`,
//! `divide k by BODY` and `narrow k 1 0 BODY`,
//! where a body is words such as `a=1&b=02:1`, which are its lines, and `else:0`, which is its default.
use mv_base::{Items, Name, PackedSet, Value, ValueSet};
use mv_rules::{Body, BodyLine, BodyLit, Code, Rule};
use std::alloc::Global;
use std::test::Fail;

/// The name of a net.
fn name(alloc: Global, word: &str) -> Result<Name, Fail> {
    Ok(Name::new(alloc, word.as_bytes())?)
}

/// The values whose digits stand in the word.
fn set(digits: &str) -> ValueSet {
    let mut set = ValueSet::empty();
    for digit in digits.bytes() {
        if digit.is_ascii_digit() {
            set = set.join(ValueSet::one(Value(u16::from(digit & 15))));
        }
    }
    set
}

/// The literals with `&` between them, none of which is the empty word.
fn literals(alloc: Global, words: &str) -> Result<Items<BodyLit>, Fail> {
    let mut literals = Items::new(alloc);
    for word in words.split('&') {
        if let Some((net, values)) = word.split_once('=') {
            let net = name(alloc, net)?;
            let set = PackedSet::new(alloc, set(values))?;
            literals.push(BodyLit { net, set })?;
        }
    }
    Ok(literals)
}

/// Puts the line or the default of a word to a body.
fn put_line(body: &mut Body, alloc: Global, word: &str) -> Result<(), Fail> {
    let (words, out) = word.split_once(':').ok_or("a line without an output")?;
    let out = PackedSet::new(alloc, set(out))?;
    if words == "else" {
        body.default = Some(out);
        return Ok(());
    }
    let lits = literals(alloc, words)?;
    Ok(body.lines.push(BodyLine { lits, out })?)
}

/// The body of the words.
fn body(alloc: Global, words: &str) -> Result<Body, Fail> {
    let mut body = Body {
        lines: Items::new(alloc),
        default: None,
    };
    for word in words.split_whitespace() {
        put_line(&mut body, alloc, word)?;
    }
    Ok(body)
}

/// The rule that a net with this body comes.
fn addition(alloc: Global, net: &str, words: &str) -> Result<Rule, Fail> {
    let net = name(alloc, net)?;
    let body = body(alloc, words)?;
    Ok(Rule::Add { net, body })
}

/// The rule that a net is divided by another, which stands before the body.
fn division(alloc: Global, net: &str, words: &str) -> Result<Rule, Fail> {
    let (by, lines) = words.split_once(' ').ok_or("no divisor")?;
    let net = name(alloc, net)?;
    let by = name(alloc, by)?;
    let body = body(alloc, lines)?;
    Ok(Rule::Divide { net, by, body })
}

/// The steps of a window.
fn steps(word: &str) -> Result<u16, Fail> {
    match word.parse::<u16>() {
        Ok(steps) => Ok(steps),
        Err(_fault) => Err("no steps")?,
    }
}

/// The rule that a net gets a body, before which stand the steps of a window.
fn narrowing(alloc: Global, net: &str, words: &str) -> Result<Rule, Fail> {
    let (down, rest) = words.split_once(' ').ok_or("no steps up")?;
    let (up, lines) = rest.split_once(' ').ok_or("no body")?;
    let net = name(alloc, net)?;
    let d = steps(down)?;
    let u = steps(up)?;
    let body = body(alloc, lines)?;
    Ok(Rule::Narrow { net, d, u, body })
}

/// The value of a number.
fn value(word: &str) -> Result<Value, Fail> {
    match word.parse::<u16>() {
        Ok(number) => Ok(Value(number)),
        Err(_fault) => Err("no value")?,
    }
}

/// The rule that a value of a net goes, into the one that stands behind it, if one does.
fn merging(alloc: Global, net: &str, words: &str) -> Result<Rule, Fail> {
    let net = name(alloc, net)?;
    match words.split_once(' ') {
        Some((gone, into)) => Ok(Rule::Merge {
            net,
            gone: value(gone)?,
            into: Some(value(into)?),
        }),
        None => Ok(Rule::Merge {
            net,
            gone: value(words)?,
            into: None,
        }),
    }
}

/// Names with commas between them.
fn names(alloc: Global, words: &str) -> Result<Items<Name>, Fail> {
    let mut names = Items::new(alloc);
    for word in words.split(',') {
        names.push(name(alloc, word)?)?;
    }
    Ok(names)
}

/// The code with these bits.
fn code(alloc: Global, digits: &str) -> Result<Code, Fail> {
    let mut bits = Items::new(alloc);
    for digit in digits.bytes() {
        bits.push(digit == b'1')?;
    }
    Ok(Code { bits })
}

/// Codes with commas between them.
fn codes(alloc: Global, words: &str) -> Result<Items<Code>, Fail> {
    let mut codes = Items::new(alloc);
    for word in words.split(',') {
        codes.push(code(alloc, word)?)?;
    }
    Ok(codes)
}

/// The rule that nets with these names have the bits of these codes of the net's values.
fn encoding(alloc: Global, net: &str, words: &str) -> Result<Rule, Fail> {
    let (bits, digits) = words.split_once(' ').ok_or("no codes")?;
    Ok(Rule::Encode {
        net: name(alloc, net)?,
        names: names(alloc, bits)?,
        codes: codes(alloc, digits)?,
    })
}

/// The rule that a net's table gets the values whose digits stand in the word as its default.
fn filling(alloc: Global, net: &str, digits: &str) -> Result<Rule, Fail> {
    let net = name(alloc, net)?;
    let out = PackedSet::new(alloc, set(digits))?;
    Ok(Rule::Fill { net, out })
}

/// The rule of a net alone.
fn short_rule(alloc: Global, what: &str, net: &str) -> Result<Rule, Fail> {
    let net = name(alloc, net)?;
    match what {
        "remove" => Ok(Rule::Remove { net }),
        "wire" => Ok(Rule::Wire { net }),
        "collapse" => Ok(Rule::Collapse { net }),
        _ => Err("no such rule")?,
    }
}

/// The rule of a text.
pub fn rule(alloc: Global, text: &str) -> Result<Rule, Fail> {
    let (what, rest) = text.split_once(' ').ok_or("no net")?;
    match rest.split_once(' ') {
        Some((net, words)) if what == "add" => addition(alloc, net, words),
        Some((net, digits)) if what == "fill" => filling(alloc, net, digits),
        Some((net, words)) if what == "narrow" => narrowing(alloc, net, words),
        Some((net, words)) if what == "merge" => merging(alloc, net, words),
        Some((net, words)) if what == "encode" => encoding(alloc, net, words),
        Some((net, words)) => division(alloc, net, words),
        None => short_rule(alloc, what, rest),
    }
}
