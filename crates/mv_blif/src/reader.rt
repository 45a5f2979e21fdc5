ghost use Rattle.std.specs.Prelude.{◌≡◌, ◌⊎◌, List, OnOk, IfOk, IfErr};
ghost use Rattle.mv_lex.specs.declared.lines.LexLine.{LexLine};
ghost use Rattle.mv_blif_line.specs.declared.fault.BlifFault.{BlifFault};
ghost use Rattle.mv_blif_line.specs.Faults.{Tells};
ghost use Rattle.mv_blif.specs.declared.design.BlifDesign.{BlifDesign};
ghost use Rattle.mv_blif.specs.Known.{known as known_of};
ghost use Rattle.mv_blif.specs.Meaning.{name_of, blif_of};
ghost use Rattle.mv_blif.specs.Grammar.{file_faults, faults_of, IsBlif, AreWithinLimits, FirstFault};

use crate::contents::read_contents;
use crate::design::BlifDesign;
use crate::inside::check_controls;
use crate::known::Known;
use crate::step::take_line;
use mv_base::{Items, Memory, Name, NameSet};
use mv_blif_line::{BlifFault, command_at, copy_first};
use mv_design::{Design, FileModel};
use mv_fault::ParseFault;
use mv_lex::{LexLine, Lines};
use mv_line::behind_first;
use std::alloc::Global;

/// Tells the first fault of the end of a file of these lines.
fn check_file_end(known: &Known, lines: &[LexLine]) -> Result<(), BlifFault>
    ensures { Tells result (file_faults known.now lines.now) }
{
    if !known.begun {
        return Err(BlifFault::Line(ParseFault::NoModel { line: 1 }));
    }
    if known.ended {
        return Ok(());
    }
    check_controls(&known.inputs, lines)
}

/// What all lines say to their end, if none has a fault.
#[tactic(auto, using(crate::proofs::Walks::walking))]
fn check_lines(alloc: Global, lines: &[LexLine]) -> Result<Known, BlifFault>
    ensures fault { Tells result (faults_of lines.now) }
    ensures ok { IfOk result (λ k. k ≡ known_of lines.now) }
{
    let mut known = Known {
        begun: false,
        ended: false,
        inputs: NameSet::new(alloc),
        outputs: NameSet::new(alloc),
        table: None,
    };
    for (at, line) in lines.iter().enumerate() {
        match take_line(alloc, &mut known, command_at(line), &lines[..at], line) {
            Ok(()) => {}
            Err(fault) => return Err(fault),
        }
    }
    check_file_end(&known, lines)?;
    Ok(known)
}

/// The name of the model of these lines.
fn name(alloc: Global, lines: &[LexLine]) -> Result<Name, Memory>
    ensures { IfOk result (λ name. name ≡ name_of lines.now) }
{
    match lines {
        [line, ..] => copy_first(alloc, behind_first(line)),
        [] => Name::new(alloc, b""),
    }
}

/// The design of these lines, of which this is known.
#[tactic(auto, unfolding(crate::specs::Meaning::blif_of, crate::specs::Known::known))]
fn design(alloc: Global, known: &Known, lines: &[LexLine]) -> Result<BlifDesign, Memory>
    requires { known.now ≡ known_of lines.now }
    ensures { IfOk result (λ design. design ≡ blif_of lines.now) }
{
    let contents = read_contents(alloc, lines)?;
    let mut models = Items::new(alloc);
    models.push(FileModel {
        name: name(alloc, lines)?,
        inputs: Items::of_names(alloc, known.inputs.as_slice())?,
        outputs: Items::of_names(alloc, known.outputs.as_slice())?,
        decls: Items::new(alloc),
        tables: contents.tables,
        latches: contents.latches,
        resets: contents.resets,
        instances: Items::new(alloc),
    })?;
    Ok(BlifDesign {
        design: Design { root: 0, models },
        latches: contents.settings,
    })
}

/// The design that the lines of a BLIF file say, with what they say of its latches, or else the first fault of the lines, in
/// the order in which faults are told; limits of the program are among them.
pub fn read_blif(alloc: Global, lines: &Lines) -> Result<BlifDesign, BlifFault>
    ensures ok { IfOk result (λ design. IsBlif lines.now design) }
    ensures within { OnOk result (AreWithinLimits lines.now) }
    ensures fault { IfErr result (λ f. (f ≡ BlifFault.Memory) ⊎ FirstFault lines.now f) }
{
    let lines = lines.as_slice();
    let known = check_lines(alloc, lines)?;
    Ok(design(alloc, &known, lines)?)
}

/// Lines with a first fault say no design within the limits. So `read_blif` is Ok exactly where lines say a design within the
/// limits, memory aside.
pub fn one_answer()
    ensures { (lines : List LexLine) (f : BlifFault) (d : BlifDesign) → FirstFault lines f
        → IsBlif lines d → AreWithinLimits lines → ⊥ }
{}
