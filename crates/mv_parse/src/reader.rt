ghost use Rattle.std.specs.Prelude.{◌≡◌, ◌⊎◌, ◌≤◌, ◌++◌, ◌∷◌, [], if◌then◌else◌, length, List, OnOk, IfOk, IfErr};
ghost use Rattle.mv_base.specs.declared.limits.TheConstants.{MAX_MODELS as most_models};
ghost use Rattle.mv_lex.specs.declared.lines.LexLine.{LexLine};
ghost use Rattle.mv_design.specs.declared.design.Design.{Design};
ghost use Rattle.mv_fault.specs.declared.fault.ParseFault.{ParseFault};
ghost use Rattle.mv_fault.specs.Tells.{Tells};
ghost use Rattle.mv_parse.specs.Grammar.{file_faults, faults_of, design_known, design_of, IsDesign, AreWithinLimits, FirstFault};
ghost use Rattle.mv_parse.specs.Steps.{is_inner};

use crate::command::{Command, command_at, is_model};
use crate::known::Known;
use crate::roots::root_place;
use crate::step::take_line;
use mv_base::{Items, NameSet};
use mv_design::Design;
use mv_fault::ParseFault;
use mv_lex::{LexLine, Lines};
use std::alloc::Global;

/// The design of the models that have ended, if none is open.
#[tactic(auto, using(mv_fault::proofs::Firsts::firsts))]
fn end_file(known: Known) -> Result<Design, ParseFault>
    requires { length known.names ≤ most_models }
    ensures fault { Tells result (file_faults known) }
    ensures ok { IfOk result (λ design. design ≡ design_known known) }
{
    let Known {
        models,
        names,
        root,
        inside,
    } = known;
    match inside {
        Some(model) => Err(ParseFault::NoEnd { line: model.line }),
        None if models.is_empty() => Err(ParseFault::NoModel { line: 1 }),
        None => Ok(Design {
            root: root_place(&names, root)?,
            models,
        }),
    }
}

/// Whether a line that has been read is one of the open model's behind its first.
fn is_inner(command: Command, known: &Known) -> bool
    ensures { result ≡ is_inner command known.now.inside }
{
    !is_model(command) && known.inside.is_some()
}

/// Keeps a line that has been read with those of the open model behind its first. A line that is none of these lets them go:
/// it begins a model or ends one, or stands outside.
fn keep_line(body: &mut Items<LexLine>, inner: bool, line: LexLine) -> Result<(), ParseFault>
    ensures fault { IfErr result (λ f. f ≡ ParseFault.Memory) }
    ensures ok { OnOk result (body.new ≡ (if inner then body.old ++ line ∷ [] else [])) }
{
    if inner {
        body.push(line)?;
    } else {
        body.truncate(0);
    }
    Ok(())
}

/// Reads all lines in turn.
#[tactic(auto, using(mv_fault::proofs::Firsts::firsts))]
fn read_lines(alloc: Global, lines: Vec<LexLine>) -> Result<Design, ParseFault>
    ensures fault { Tells result (faults_of lines.items) }
    ensures ok { IfOk result (λ design. design ≡ design_of lines.items) }
{
    let mut known = Known {
        models: Items::new(alloc),
        names: NameSet::new(alloc),
        root: None,
        inside: None,
    };
    // the lines of the open model behind its first
    let mut body = Items::new(alloc);
    for line in lines {
        let command = command_at(&line);
        match take_line(alloc, &mut known, command, &mut body, &line) {
            Ok(()) => {}
            Err(fault) => return Err(fault),
        }
        keep_line(&mut body, is_inner(command, &known), line)?;
    }
    end_file(known)
}

/// The design that the lines say, or else the first fault of the lines, in the order in which faults are told; limits of
/// the program are among them.
pub fn parse(alloc: Global, lines: &Lines) -> Result<Design, ParseFault>
    ensures ok { IfOk result (λ design. IsDesign lines.now design) }
    ensures within { OnOk result (AreWithinLimits lines.now) }
    ensures fault { IfErr result (λ f. (f ≡ ParseFault.Memory) ⊎ FirstFault lines.now f) }
{
    parse_owned(alloc, lines.copy()?)
}

/// The same for lines that aren't needed any more: each is let go as soon as the design has what it says, so that the lines
/// and the design never stand whole in memory together.
pub fn parse_owned(alloc: Global, lines: Lines) -> Result<Design, ParseFault>
    ensures ok { IfOk result (λ design. IsDesign lines design) }
    ensures within { OnOk result (AreWithinLimits lines) }
    ensures fault { IfErr result (λ f. (f ≡ ParseFault.Memory) ⊎ FirstFault lines f) }
{
    read_lines(alloc, lines.list)
}

/// Lines with a first fault say no design within the limits. So `parse` is Ok exactly where lines say a design within the
/// limits, memory aside.
pub fn one_answer()
    ensures { (lines : List LexLine) (f : ParseFault) (d : Design) → FirstFault lines f
        → IsDesign lines d → AreWithinLimits lines → ⊥ }
{}
