ghost use Rattle.std.specs.Prelude.{◌≡◌, IfOk};
ghost use Rattle.mv_step.specs.Lines.{default_said, narrow_said, merge_said, merge_into_said, fill_said, words_said, said};
ghost use Rattle.mv_step.specs.Sets.{number_said, set_said};

use crate::encoding::encode_said;
use crate::keyword::{Keyword, keyword_of};
use crate::line::line_said;
use crate::number::number_said;
use crate::set::set_said;
use crate::step::Head;
use mv_base::{Memory, Name, PackedSet, Value};
use mv_entry::{BodyLine, Rule};
use mv_lex::LexLine;
use std::alloc::Global;

/// What a line of a certificate says, wherever it stands.
#[derive(Drop)]
pub enum Said {
    /// A rule without a body.
    Whole(Rule),
    /// A rule whose body comes behind the line.
    Begins(Head),
    /// A line of a body.
    Line(BodyLine),
    /// The default of a body.
    Default(PackedSet),
    /// The end of a body.
    End,
    /// Nothing that the grammar has.
    Nothing,
}

/// What a default says with this word for its set.
fn default_said(alloc: Global, set: &[u8]) -> Result<Said, Memory>
    ensures { IfOk result (λ s. s ≡ default_said (set_said set.now)) }
{
    let Some(set) = set_said(set) else {
        return Ok(Said::Nothing);
    };
    Ok(Said::Default(PackedSet::new(alloc, set)?))
}

/// What the first line of a rule says that narrows the table of a net.
fn narrow_said(net: &Name, d: &[u8], u: &[u8]) -> Result<Said, Memory>
    ensures { IfOk result (λ s. s ≡ narrow_said net.now (number_said d.now) (number_said u.now)) }
{
    let Some(d) = number_said(d) else {
        return Ok(Said::Nothing);
    };
    let Some(u) = number_said(u) else {
        return Ok(Said::Nothing);
    };
    let net = net.copy()?;
    Ok(Said::Begins(Head::Narrow { net, d, u }))
}

/// What the line of a rule says by which a value leaves all sets.
fn merge_said(net: &Name, gone: &[u8]) -> Result<Said, Memory>
    ensures { IfOk result (λ s. s ≡ merge_said net.now (number_said gone.now)) }
{
    let Some(gone) = number_said(gone) else {
        return Ok(Said::Nothing);
    };
    Ok(Said::Whole(Rule::Merge {
        net: net.copy()?,
        gone: Value(gone),
        into: None,
    }))
}

/// What the line of a rule says by which a value goes into another.
fn merge_into_said(net: &Name, gone: &[u8], into: &[u8]) -> Result<Said, Memory>
    ensures { IfOk result
        (λ s. s ≡ merge_into_said net.now (number_said gone.now) (number_said into.now)) }
{
    let Some(gone) = number_said(gone) else {
        return Ok(Said::Nothing);
    };
    let Some(into) = number_said(into) else {
        return Ok(Said::Nothing);
    };
    Ok(Said::Whole(Rule::Merge {
        net: net.copy()?,
        gone: Value(gone),
        into: Some(Value(into)),
    }))
}

/// What the line of a rule says that fills the table of a net.
fn fill_said(alloc: Global, net: &Name, set: &[u8]) -> Result<Said, Memory>
    ensures { IfOk result (λ s. s ≡ fill_said net.now (set_said set.now)) }
{
    let Some(out) = set_said(set) else {
        return Ok(Said::Nothing);
    };
    let net = net.copy()?;
    let out = PackedSet::new(alloc, out)?;
    Ok(Said::Whole(Rule::Fill { net, out }))
}

/// What a line says whose first word is this, with these words behind it.
fn words_said(alloc: Global, keyword: Keyword, words: &[Name]) -> Result<Said, Memory>
    ensures { IfOk result (λ s. s ≡ words_said keyword words.now) }
{
    match (keyword, words) {
        (Keyword::Remove, [net]) => Ok(Said::Whole(Rule::Remove { net: net.copy()? })),
        (Keyword::Wire, [net]) => Ok(Said::Whole(Rule::Wire { net: net.copy()? })),
        (Keyword::Collapse, [net]) => Ok(Said::Whole(Rule::Collapse { net: net.copy()? })),
        (Keyword::Add, [net]) => Ok(Said::Begins(Head::Add { net: net.copy()? })),
        (Keyword::Divide, [net, by]) => Ok(Said::Begins(Head::Divide {
            net: net.copy()?,
            by: by.copy()?,
        })),
        (Keyword::Line, words) => Ok(line_said(alloc, words)?.map_or(Said::Nothing, Said::Line)),
        (Keyword::Narrow, [net, d, u]) => narrow_said(net, d.bytes(), u.bytes()),
        (Keyword::Merge, [net, gone]) => merge_said(net, gone.bytes()),
        (Keyword::Merge, [net, gone, into]) => merge_into_said(net, gone.bytes(), into.bytes()),
        (Keyword::Encode, [net, number, words @ ..]) => encode_said(
            alloc,
            net,
            number.bytes(),
            words,
        ),
        (Keyword::Fill, [net, set]) => fill_said(alloc, net, set.bytes()),
        (Keyword::Default, [set]) => default_said(alloc, set.bytes()),
        (Keyword::End, []) => Ok(Said::End),
        _ => Ok(Said::Nothing),
    }
}

/// What the line says.
pub fn said_by(line: &LexLine) -> Result<Said, Memory>
    ensures { IfOk result (λ s. s ≡ said line.now.words) }
{
    match line.words.as_slice() {
        [] => Ok(Said::Nothing),
        [first, words @ ..] => words_said(line.words.allocator(), keyword_of(first.bytes()), words),
    }
}
