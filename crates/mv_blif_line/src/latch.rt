ghost use Rattle.std.specs.Prelude.{◌≡◌, ◌<◌, ◌++◌, drop, IfOk, OnOk};
ghost use Rattle.mv_base.specs.declared.limits.TheConstants.{MAX_VALUES as most_values};
ghost use Rattle.mv_line.specs.Latches.{latch_of};
ghost use Rattle.mv_line.specs.Words.{behind_first, first_of};
ghost use Rattle.mv_blif_line.specs.Faults.{Tells};
ghost use Rattle.mv_blif_line.specs.Latches.{kind_of, init_of, kind_faults, init_faults, settings_faults, net_faults, latch_line_faults};
ghost use Rattle.mv_blif_line.specs.Latches.{control_of, init_said, settings_of, settings_at, control_faults, constant_reset, resets_at};

use crate::fault::BlifFault;
use crate::table::constant_row;
use mv_base::{Items, Memory, Name, NameSet};
use mv_design::{FileLatch, FileTable, Rows};
use mv_fault::ParseFault;
use mv_latch::{BlifLatch, LatchKind};
use mv_lex::LexLine;
use mv_line::behind_first;
use mv_word::{is_net_name, is_text};
use std::alloc::Global;

/// The kind of latch that a word says, if it says one.
#[tactic(auto, unfolding(crate::specs::Latches::kind_of))]
fn kind_of(word: &Name) -> Option<LatchKind>
    ensures { result ≡ kind_of word.now }
{
    let word = word.bytes();
    if is_text(word, b"fe") {
        Some(LatchKind::Fe)
    } else if is_text(word, b"re") {
        Some(LatchKind::Re)
    } else if is_text(word, b"ah") {
        Some(LatchKind::Ah)
    } else if is_text(word, b"al") {
        Some(LatchKind::Al)
    } else if is_text(word, b"as") {
        Some(LatchKind::As)
    } else {
        None
    }
}

/// The number that a word says of how a latch begins, if it says one.
#[tactic(auto, unfolding(crate::specs::Latches::init_of))]
fn init_of(word: &Name) -> Option<u8>
    ensures { result ≡ init_of word.now }
{
    let word = word.bytes();
    if is_text(word, b"0") {
        Some(0)
    } else if is_text(word, b"1") {
        Some(1)
    } else if is_text(word, b"2") {
        Some(2)
    } else if is_text(word, b"3") {
        Some(3)
    } else {
        None
    }
}

/// Refuses a word that is no kind of latch.
#[tactic(auto, unfolding(crate::specs::Latches::kind_faults))]
fn check_kind(number: u32, word: &Name) -> Result<(), BlifFault>
    ensures { Tells result (kind_faults number word.now) }
{
    if kind_of(word).is_none() {
        return Err(BlifFault::BadLatch {
            line: number,
            word: word.copy()?,
        });
    }
    Ok(())
}

/// Refuses a word that doesn't say how a latch begins.
#[tactic(auto, unfolding(crate::specs::Latches::init_faults))]
fn check_init(number: u32, word: &Name) -> Result<(), BlifFault>
    ensures { Tells result (init_faults number word.now) }
{
    if init_of(word).is_none() {
        return Err(BlifFault::BadLatch {
            line: number,
            word: word.copy()?,
        });
    }
    Ok(())
}

/// Tells the first fault of the words behind the nets of a latch.
#[tactic(auto, using(mv_fault::proofs::Firsts::firsts), unfolding(crate::specs::Latches::settings_faults))]
fn check_settings(number: u32, word: &Name, words: &[Name]) -> Result<(), BlifFault>
    ensures { Tells result (settings_faults number word.now words.now) }
{
    match words {
        [] => Ok(()),
        [init] => check_init(number, init),
        [kind, _control] => check_kind(number, kind),
        [kind, _control, init] => {
            check_kind(number, kind)?;
            check_init(number, init)
        }
        [kind, _control, init, ..] => {
            check_kind(number, kind)?;
            check_init(number, init)?;
            Err(BlifFault::Line(ParseFault::Extra {
                line: number,
                word: word.copy()?,
            }))
        }
    }
}

/// Refuses a word that is no lawful name of a net.
#[tactic(auto, unfolding(crate::specs::Latches::net_faults, mv_decl::specs::Line::net_name_faults))]
fn check_net(number: u32, word: &Name) -> Result<(), BlifFault>
    ensures { Tells result (net_faults number word.now) }
{
    if !is_net_name(word.bytes()) {
        return Err(BlifFault::Line(ParseFault::BadName {
            line: number,
            name: word.copy()?,
        }));
    }
    Ok(())
}

/// Tells the first fault of the words behind `.latch`.
#[tactic(auto, using(mv_fault::proofs::Firsts::firsts), unfolding(crate::specs::Latches::latch_line_faults))]
pub fn check_latch(number: u32, word: &Name, words: &[Name]) -> Result<(), BlifFault>
    ensures { Tells result (latch_line_faults number word.now words.now) }
{
    match words {
        [] => Err(BlifFault::Line(ParseFault::Missing {
            line: number,
            word: word.copy()?,
        })),
        [input] => {
            check_net(number, input)?;
            Err(BlifFault::Line(ParseFault::Missing {
                line: number,
                word: word.copy()?,
            }))
        }
        [input, output, settings @ ..] => {
            check_net(number, input)?;
            check_net(number, output)?;
            check_settings(number, word, settings)
        }
    }
}

/// What the word of a control says, which is none where it is `NIL`.
#[tactic(auto, unfolding(crate::specs::Latches::control_of))]
fn control_of(word: &Name) -> Result<Option<Name>, Memory>
    ensures { IfOk result (λ control. control ≡ control_of word.now) }
{
    if is_text(word.bytes(), b"NIL") {
        return Ok(None);
    }
    Ok(Some(word.copy()?))
}

/// The number that a word says of how a latch begins, or that it isn't known.
#[tactic(auto, unfolding(crate::specs::Latches::init_said))]
fn init_said(word: &Name) -> u8
    ensures { result ≡ init_said word.now }
{
    init_of(word).unwrap_or(3)
}

/// What these words behind the nets of a latch say.
#[tactic(auto, unfolding(crate::specs::Latches::settings_of))]
fn settings_of(words: &[Name]) -> Result<BlifLatch, Memory>
    ensures { IfOk result (λ settings. settings ≡ settings_of words.now) }
{
    match words {
        [] => Ok(BlifLatch {
            kind: None,
            control: None,
            init: 3,
        }),
        [init] => Ok(BlifLatch {
            kind: None,
            control: None,
            init: init_said(init),
        }),
        [kind, control] => Ok(BlifLatch {
            kind: kind_of(kind),
            control: control_of(control)?,
            init: 3,
        }),
        [kind, control, init, ..] => Ok(BlifLatch {
            kind: kind_of(kind),
            control: control_of(control)?,
            init: init_said(init),
        }),
    }
}

/// The words of a line behind the nets of its latch.
fn behind_nets(line: &LexLine) -> &[Name]
    ensures { result.now ≡ drop 2 (behind_first line.now) }
{
    match behind_first(line) {
        [] => &[],
        [_input] => &[],
        [_input, _output, settings @ ..] => settings,
    }
}

/// What the line of a latch says besides its nets.
pub fn settings(line: &LexLine) -> Result<BlifLatch, Memory>
    ensures { IfOk result (λ settings. settings ≡ settings_at line.now) }
{
    settings_of(behind_nets(line))
}

/// Refuses a control of the latch on this line that is none of these inputs of the model.
pub fn check_control(inputs: &NameSet, line: &LexLine) -> Result<(), BlifFault>
    ensures { Tells result
        (control_faults line.now.number inputs.now (settings_at line.now).control) }
{
    let latch = settings(line)?;
    match latch.control {
        Some(word) => {
            if !inputs.contains(&word) {
                return Err(BlifFault::BadLatch {
                    line: line.number,
                    word,
                });
            }
            Ok(())
        }
        None => Ok(()),
    }
}

/// The first of these words, or no bytes where there is none.
pub fn copy_first(alloc: Global, words: &[Name]) -> Result<Name, Memory>
    ensures { IfOk result (λ name. name ≡ first_of words.now) }
{
    match words {
        [first, ..] => first.copy(),
        [] => Name::new(alloc, b""),
    }
}

/// The net that the latch on this line drives.
fn output(alloc: Global, line: &LexLine) -> Result<Name, Memory>
    ensures { IfOk result (λ name. name ≡ first_of (drop 1 (behind_first line.now))) }
{
    let words = behind_first(line);
    let (_input, behind) = words.split_at(words.len().min(1));
    copy_first(alloc, behind)
}

/// The latch that a line says.
pub fn read_latch(alloc: Global, line: &LexLine) -> Result<FileLatch, Memory>
    ensures { IfOk result (λ latch. latch ≡ latch_of line.now) }
{
    Ok(FileLatch {
        line: line.number,
        input: copy_first(alloc, behind_first(line))?,
        output: output(alloc, line)?,
    })
}

/// A reset table that gives a net this one value.
fn constant_reset(alloc: Global, number: u32, net: Name, value: u16) -> Result<FileTable, Memory>
    requires { value < most_values }
    ensures { IfOk result (λ table. table ≡ constant_reset number net value) }
{
    let mut outputs = Items::new(alloc);
    outputs.push(net)?;
    let mut rows = Items::new(alloc);
    rows.push(constant_row(alloc, value)?)?;
    Ok(FileTable {
        line: number,
        inputs: Items::new(alloc),
        outputs,
        rows: Rows::of(alloc, rows)?,
        default: None,
    })
}

/// Adds the reset table of the latch on this line, if the latch begins at 0 or at 1.
#[tactic(auto, unfolding(crate::specs::Latches::resets_at))]
pub fn add_reset(alloc: Global, resets: &mut Items<FileTable>, line: &LexLine) -> Result<(), Memory>
    ensures { OnOk result (resets.new ≡ resets.old ++ resets_at line.now) }
{
    let latch = settings(line)?;
    if latch.init >= 2 {
        return Ok(());
    }
    let net = output(alloc, line)?;
    let table = constant_reset(alloc, line.number, net, latch.init as u16)?;
    resets.push(table)?;
    Ok(())
}
