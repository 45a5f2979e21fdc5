ghost use Rattle.std.specs.Prelude.{◌≡◌, IfOk};
ghost use Rattle.mv_fault.specs.Tells.{Tells};
ghost use Rattle.mv_decl.specs.Line.{net_name_faults};
ghost use Rattle.mv_line.specs.Latches.{latch_of};
ghost use Rattle.mv_line.specs.Words.{first_of};
ghost use Rattle.mv_parse.specs.Grammar.{latch_faults, latch_value_faults};

use mv_base::{Memory, Name};
use mv_decl::Decls;
use mv_design::FileLatch;
use mv_fault::ParseFault;
use mv_lex::LexLine;
use mv_line::behind_first;
use mv_word::is_net_name;
use std::alloc::Global;

/// Refuses a word that is no lawful name of a net.
#[tactic(auto, unfolding(mv_decl::specs::Line::net_name_faults))]
fn check_net(number: u32, word: &Name) -> Result<(), ParseFault>
    ensures { Tells result (net_name_faults number word.now) }
{
    if !is_net_name(word.bytes()) {
        return Err(ParseFault::BadName {
            line: number,
            name: word.copy()?,
        });
    }
    Ok(())
}

/// Tells the first fault of the words behind `.latch`.
#[tactic(auto, using(mv_fault::proofs::Firsts::firsts), unfolding(crate::specs::Grammar::latch_faults))]
pub fn check_latch(number: u32, word: &Name, words: &[Name]) -> Result<(), ParseFault>
    ensures { Tells result (latch_faults number word.now words.now) }
{
    match words {
        [] => Err(ParseFault::Missing {
            line: number,
            word: word.copy()?,
        }),
        [input] => {
            check_net(number, input)?;
            Err(ParseFault::Missing {
                line: number,
                word: word.copy()?,
            })
        }
        [input, output] => {
            check_net(number, input)?;
            check_net(number, output)
        }
        [input, output, ..] => {
            check_net(number, input)?;
            check_net(number, output)?;
            Err(ParseFault::Extra {
                line: number,
                word: word.copy()?,
            })
        }
    }
}

/// The first of these words, or no bytes where there is none.
fn copy_first(alloc: Global, words: &[Name]) -> Result<Name, Memory>
    ensures { IfOk result (λ name. name ≡ first_of words.now) }
{
    match words {
        [first, ..] => first.copy(),
        [] => Name::new(alloc, b""),
    }
}

/// The latch that a line says, if its input and its output have as many values.
#[tactic(auto, unfolding(crate::specs::Grammar::latch_value_faults))]
pub fn read_latch(alloc: Global, decls: &Decls, line: &LexLine) -> Result<FileLatch, ParseFault>
    ensures fault { Tells result (latch_value_faults decls.now (latch_of line.now)) }
    ensures ok { IfOk result (λ latch. latch ≡ latch_of line.now) }
{
    let words = behind_first(line);
    let (_input, behind) = words.split_at(words.len().min(1));
    let latch = FileLatch {
        line: line.number,
        input: copy_first(alloc, words)?,
        output: copy_first(alloc, behind)?,
    };
    if decls.values_of(&latch.input).len() != decls.values_of(&latch.output).len() {
        return Err(ParseFault::LatchValues {
            line: latch.line,
            input: latch.input,
            output: latch.output,
        });
    }
    Ok(latch)
}
