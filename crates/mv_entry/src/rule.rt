ghost use Rattle.std.specs.Prelude.{◌≡◌, IfOk};

use mv_base::{Items, Memory, Name, PackedSet, Value, ValueSet};

/// A literal of a body: the net with this name has one of these values.
#[derive(Drop)]
pub struct BodyLit {
    pub net: Name,
    pub set: PackedSet,
}

/// A line of a body: where all literals hold, each value of `out` is allowed.
#[derive(Drop)]
pub struct BodyLine {
    pub lits: Items<BodyLit>,
    pub out: PackedSet,
}

/// A table as a rule gives it, by the names of nets. It may be any lines: whether it is the table of some net is for the
/// rule to say. The default, if there is one, counts where no line holds.
#[derive(Drop)]
pub struct Body {
    pub lines: Items<BodyLine>,
    pub default: Option<PackedSet>,
}

/// A code of a value: a bit for each of some nets of two values, in order.
#[derive(Drop)]
pub struct Code {
    pub bits: Items<bool>,
}

/// A change of a network, by the names of nets. Its numbers may be any: whether a net has such a value is for the rule to say.
#[derive(Drop)]
pub enum Rule {
    /// The net goes.
    Remove {
        net: Name,
    },
    /// A net of two values comes, with this table.
    Add {
        net: Name,
        body: Body,
    },
    /// The net gets this table, which reads the net `by`.
    Divide {
        net: Name,
        by: Name,
        body: Body,
    },
    /// Who reads the net, which has the value of another, reads that one.
    Wire {
        net: Name,
    },
    /// The net goes, and its table into those of its readers.
    Collapse {
        net: Name,
    },
    /// The net gets this table, as far as the window of so many steps down and up lets it.
    Narrow {
        net: Name,
        d: u16,
        u: u16,
        body: Body,
    },
    /// The value `gone` of the net goes: into another one, or from all sets.
    Merge {
        net: Name,
        gone: Value,
        into: Option<Value>,
    },
    /// The net goes, and nets of two values with these names come, one for each bit of the codes of its values.
    Encode {
        net: Name,
        names: Items<Name>,
        codes: Items<Code>,
    },
    /// The net's table gets these values as its default.
    Fill {
        net: Name,
        out: PackedSet,
    },
}

impl BodyLit {
    /// An equal literal.
    pub fn copy(&self) -> Result<BodyLit, Memory>
        ensures { IfOk result (λ literal. literal ≡ self.now) }
    {
        Ok(BodyLit {
            net: self.net.copy()?,
            set: self.set.copy()?,
        })
    }
}

impl Code {
    /// An equal code.
    pub fn copy(&self) -> Result<Code, Memory>
        ensures { IfOk result (λ code. code ≡ self.now) }
    {
        Ok(Code {
            bits: self.bits.copy()?,
        })
    }
}

impl BodyLine {
    /// An equal line.
    pub fn copy(&self) -> Result<BodyLine, Memory>
        ensures { IfOk result (λ line. line ≡ self.now) }
    {
        Ok(BodyLine {
            lits: copied_lits(&self.lits)?,
            out: self.out.copy()?,
        })
    }
}

impl Body {
    /// The values of the default, if there is one.
    pub fn default_set(&self) -> Option<ValueSet>
        ensures { result ≡ self.now.default }
    {
        match &self.default {
            Some(set) => Some(set.get()),
            None => None,
        }
    }

    /// An equal body.
    pub fn copy(&self) -> Result<Body, Memory>
        ensures { IfOk result (λ body. body ≡ self.now) }
    {
        Ok(Body {
            lines: copied_lines(&self.lines)?,
            default: copied_default(&self.default)?,
        })
    }
}

impl Rule {
    /// An equal rule.
    pub fn copy(&self) -> Result<Rule, Memory>
        ensures { IfOk result (λ rule. rule ≡ self.now) }
    {
        match self {
            Rule::Remove { net } => Ok(Rule::Remove { net: net.copy()? }),
            Rule::Add { net, body } => copied_add(net, body),
            Rule::Divide { net, by, body } => copied_divide(net, by, body),
            Rule::Wire { net } => Ok(Rule::Wire { net: net.copy()? }),
            Rule::Collapse { net } => Ok(Rule::Collapse { net: net.copy()? }),
            Rule::Narrow { net, d, u, body } => copied_narrow(net, *d, *u, body),
            Rule::Merge { net, gone, into } => Ok(Rule::Merge {
                net: net.copy()?,
                gone: *gone,
                into: *into,
            }),
            Rule::Encode { net, names, codes } => copied_encode(net, names, codes),
            Rule::Fill { net, out } => copied_fill(net, out),
        }
    }
}

/// An equal rule that adds a net.
fn copied_add(net: &Name, body: &Body) -> Result<Rule, Memory>
    ensures { IfOk result (λ rule. rule ≡ Rule.Add net.now body.now) }
{
    let net = net.copy()?;
    let body = body.copy()?;
    Ok(Rule::Add { net, body })
}

/// An equal rule that divides a net.
fn copied_divide(net: &Name, by: &Name, body: &Body) -> Result<Rule, Memory>
    ensures { IfOk result (λ rule. rule ≡ Rule.Divide net.now by.now body.now) }
{
    let net = net.copy()?;
    let by = by.copy()?;
    let body = body.copy()?;
    Ok(Rule::Divide { net, by, body })
}

/// An equal rule that narrows the table of a net.
fn copied_narrow(net: &Name, d: u16, u: u16, body: &Body) -> Result<Rule, Memory>
    ensures { IfOk result (λ rule. rule ≡ Rule.Narrow net.now d u body.now) }
{
    let net = net.copy()?;
    let body = body.copy()?;
    Ok(Rule::Narrow { net, d, u, body })
}

/// An equal rule that encodes a net.
fn copied_encode(net: &Name, names: &Items<Name>, codes: &Items<Code>) -> Result<Rule, Memory>
    ensures { IfOk result (λ rule. rule ≡ Rule.Encode net.now names.now codes.now) }
{
    let net = net.copy()?;
    let names = names.copy_names()?;
    let codes = copied_codes(codes)?;
    Ok(Rule::Encode { net, names, codes })
}

/// An equal rule that fills the table of a net.
fn copied_fill(net: &Name, out: &PackedSet) -> Result<Rule, Memory>
    ensures { IfOk result (λ rule. rule ≡ Rule.Fill net.now out.now) }
{
    let net = net.copy()?;
    let out = out.copy()?;
    Ok(Rule::Fill { net, out })
}

/// An equal default, if there is one.
fn copied_default(default: &Option<PackedSet>) -> Result<Option<PackedSet>, Memory>
    ensures { IfOk result (λ copied. copied ≡ default.now) }
{
    match default {
        Some(set) => Ok(Some(set.copy()?)),
        None => Ok(None),
    }
}

/// Equal codes, in order.
fn copied_codes(codes: &Items<Code>) -> Result<Items<Code>, Memory>
    ensures { IfOk result (λ copies. copies ≡ codes.now) }
{
    let mut copies = Items::with_room(codes.allocator(), codes.len())?;
    for code in codes.as_slice() {
        copies.push(code.copy()?)?;
    }
    Ok(copies)
}

/// Equal literals, in order.
fn copied_lits(lits: &Items<BodyLit>) -> Result<Items<BodyLit>, Memory>
    ensures { IfOk result (λ copies. copies ≡ lits.now) }
{
    let mut copies = Items::with_room(lits.allocator(), lits.len())?;
    for literal in lits.as_slice() {
        copies.push(literal.copy()?)?;
    }
    Ok(copies)
}

/// Equal lines, in order.
fn copied_lines(lines: &Items<BodyLine>) -> Result<Items<BodyLine>, Memory>
    ensures { IfOk result (λ copies. copies ≡ lines.now) }
{
    let mut copies = Items::with_room(lines.allocator(), lines.len())?;
    for line in lines.as_slice() {
        copies.push(line.copy()?)?;
    }
    Ok(copies)
}
